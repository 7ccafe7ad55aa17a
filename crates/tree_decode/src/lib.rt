//! Lists the leaves of a tree object, as entries of an index.
#![tactic(auto)]

mod error;
pub mod from_tree;
mod read;
mod walk;
