//! The input of `git update-index --index-info` as changes of an index: lines with a mode, an id and a path.
#![tactic(auto)]

pub mod error;
mod head;
pub mod line;
pub mod mode;
pub mod names;
pub mod quoting;
pub mod read;
