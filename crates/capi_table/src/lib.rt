//! Tables in a caller's memory: the entries of an index as rows, and the bytes with their paths.
//!
//! An index is read into a table, with or without the shared index that it links to. A table is written as an index,
//! with or without what is preserved of the index that it replaces. Or its rows are changes of an index. The tree
//! objects that git writes for the rows are put into the caller's memory. Calls keep no state. They take and return
//! values; `index_c` has the numbers for callers in C.
#![tactic(auto)]

mod blame;
mod collected;
pub mod fault;
mod filling;
pub mod folded;
pub mod over;
pub mod read;
pub mod row;
mod same;
pub mod spell;
pub mod split;
pub mod trees;
pub mod update;
pub mod write;
