//! The trees of an index: the tree objects that git writes for its entries, and the cached tree (TREE extension) that
//! names them.
#![tactic(auto)]

mod apart;
mod check;
mod ends;
mod error;
pub mod kept;
mod leaf;
mod merged;
mod names;
mod object;
mod shared;
mod sink;
pub mod tree_ids;
pub mod write;

pub use error::{Error, NameFault};
pub use sink::{Discard, Sink};
