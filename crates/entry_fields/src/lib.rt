//! The data of a file except its path and its id: flags, modes and stat numbers.
#![tactic(auto)]

pub mod entry;
pub mod fs;
pub mod read;
