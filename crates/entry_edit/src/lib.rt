//! Edits of the entries of a git index that keep it valid: after each the list is strictly ordered, and no entry is a
//! file where another needs a directory.
//!
//! The edits are on a list of entries, and on the storage of their paths as bytes.
#![tactic(auto)]

pub mod ahead;
pub mod apply;
pub mod change;
pub mod df_conflicts;
pub mod error;
pub mod near_end;
pub mod order;
pub mod others;
mod put;
mod refusals;
pub mod resolve;
pub mod stage;
pub mod unstage;
pub mod wholes;
