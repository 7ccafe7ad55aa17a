//! The git index: the file that lists the staged paths of a repository. It is read into memory, searched, edited and
//! written.
//!
//! All public items have the paths of the Rust crate `gix-index`, except `laws`, which that crate lacks. A user names
//! only this crate.
//!
//! - The set operations on [`entry::Flags`] and [`entry::Mode`] are those of the trait `Flags` of the crate bitflags,
//!   here [`BitFlags`].
//! - The texts that errors and caches own are [`BString`]s of the crate bstr.
//! - The name in a cache tree is a [`SmallVec`] of the crate smallvec.
#![tactic(auto)]

pub mod decode;
pub mod extension;
pub mod file;
pub mod init;
pub mod write_trees;

pub use bitflags::Flags as BitFlags;
pub use bstr::BString;
pub use entry_edit::change;
pub use entry_edit::error::Error as ChangeError;
pub use entry_edit::stage::Displaced;
pub use entry_fields::{entry, fs};
pub use entry_list::{Entry, PathBacking, PathStorage, PathStorageRef, Version};
pub use entry_lookup::folded::AccelerateLookup;
pub use entry_lookup::paths::FilterMapPaths;
pub use entry_lookup::tables::{DirectoryTable, PathSearch, count_present};
pub use ext_bitmap::ewah;
pub use file::File;
pub use index_laws as laws;
pub use index_model::write;
pub use index_parts::{hash, object, util};
pub use index_state::{State, verify};
pub use smallvec::SmallVec;
