//! Reads an index file from the disk: in windows, or at once. In windows, entries are decoded from a buffer that is
//! reused, while the file is hashed. Only what follows the entries is held completely.
#![tactic(auto)]

use entry_fields::entry::FileTime;
use index_model::decode;
use index_parts::hash::Kind;

pub mod disk;
mod extensions;
pub mod large;
pub mod passed;
mod plan;
pub mod windows;

pub use plan::WINDOW_LEN;

/// How an index file is read.
#[derive(Clone, Copy)]
pub struct ReadOptions {
    /// The hash algorithm of its ids.
    pub object_hash: Kind,
    /// Whether the comparison of the digest is skipped.
    pub skip_hash: bool,
    /// The time of the file's last change.
    pub timestamp: FileTime,
    /// The options of decoding.
    pub options: decode::Options,
}
