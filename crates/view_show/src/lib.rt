//! The content of an index file for people: a line `name: value` for each part, indented by two spaces a level.
#![tactic(auto)]

mod entries;
mod fields;
mod prepend;
mod ranges;
pub mod show;
mod structure;
mod untracked;
mod words;

pub use show::write_show;
