//! Lookup of entries of a git index: by path and stage, by prefix, by directory, and with the case of letters ignored.
//!
//! The lookups take entries as a slice, and the storage of their paths as bytes.
#![tactic(auto)]

pub mod directory;
mod fold;
pub mod folded;
mod names;
pub mod paths;
pub mod range;
pub mod search;
mod spans;
pub mod tables;
mod walk;
