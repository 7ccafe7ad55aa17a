//! Reading an index from the bytes of a file.

pub mod entries;
pub mod entry;
pub mod header;

pub use index_model::decode::{Error, Options};
