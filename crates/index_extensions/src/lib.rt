//! Reads and writes the common parts of extensions: their heads, the end marker, and the extension of a sparse index
//! (gitformat-index, "Extensions").
#![tactic(auto)]

pub mod end_of_index_entry;
pub mod head;
mod iter;
pub mod sparse;

pub use iter::Iter;

/// The four bytes with which an extension begins, for example `TREE`. A reader that doesn't know a signature may skip
/// the extension if the first byte isn't a lower-case letter.
pub type Signature = [u8; 4];

/// The number of bytes of an extension's head: the signature, and the size of its content in four bytes.
pub const MIN_SIZE: usize = 8;
