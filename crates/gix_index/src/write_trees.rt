//! Writing the trees of an index: sinks and errors.

pub use tree_encode::{Discard, Error, NameFault, Sink};
