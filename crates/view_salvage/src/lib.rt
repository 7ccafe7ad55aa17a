//! Divides a git index file into parts, and saves what is readable of a damaged one.
//!
//! [`divide`] returns which bytes of a file are what, up to the first error. [`remains_of`] returns what can be saved
//! of it.
#![tactic(auto)]

pub mod accepted;
pub mod chosen;
pub mod division;
mod front;
mod items;
pub mod laws;
pub mod remains;
pub mod salvage;

pub use accepted::{EntryFault, entry_fault};
pub use chosen::{FirstUnfit, Keep, Unfit};
pub use division::{Division, divide, headless};
pub use remains::{Remains, remains_of};
pub use salvage::{Salvaged, SharedEntries};
