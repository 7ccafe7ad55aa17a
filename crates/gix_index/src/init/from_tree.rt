//! The errors of creating an index from a tree.

pub use tree_decode::from_tree::{Error, Traversal};
