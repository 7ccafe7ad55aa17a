//! An index between bytes and memory: its parts, as they are read from a file and written to one (gitformat-index).
#![tactic(auto)]

use entry_fields::entry::FileTime;
use entry_list::{Entry, PathStorage, Version};
use extension::Outcome;
use index_parts::hash::Kind;

pub mod decode;
pub mod error;
pub mod extension;
mod lend;
pub mod write;

/// The parts of an index in memory: entries in the order of the file with the storage of their paths, and the
/// extensions.
#[derive(Drop)]
pub struct Parts {
    /// The hash algorithm of the ids.
    pub object_hash: Kind,
    /// The time at which the file was last written, as given by the caller.
    pub timestamp: FileTime,
    /// The version of the file that was read.
    pub version: Version,
    /// The entries.
    pub entries: Vec<Entry>,
    /// The storage of their paths.
    pub path_backing: PathStorage,
    /// The extensions.
    pub extensions: Outcome,
    /// Whether the extensions match these entries. It is true after a file is read, except for a split index alone. It
    /// is false after an edit of entries that doesn't update the extensions.
    pub extensions_fit: bool,
}
