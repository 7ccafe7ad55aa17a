//! Reading of the entries of a git index file: one by one as borrowed pieces, or as a list (gitformat-index, "Index
//! entry").
#![tactic(auto)]

pub mod entries;
pub mod entry;
pub mod reader;
