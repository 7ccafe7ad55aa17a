//! Checks whether git works with all entries of an index.
#![tactic(auto)]

mod beside;
pub mod verify;

pub use verify::{Error, verify_strict};
