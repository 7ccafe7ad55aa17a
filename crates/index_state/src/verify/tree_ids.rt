//! How a cache tree and the entries differ.

pub use tree_encode::tree_ids::Error;
