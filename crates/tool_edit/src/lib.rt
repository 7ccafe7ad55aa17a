//! The commands of `index-tool` that read an index with its shared index, and list, check or write it.
#![tactic(auto)]

pub mod check;
pub mod list;
pub mod rewrite;
pub mod rewrite_trees;
pub mod trees;
pub mod update;
