//! Decodes the link of a split index to its shared index, and merges the entries of both (gitformat-index, "Split
//! index").
#![tactic(auto)]

pub mod link;
pub mod merge;
