//! The events of an index: one traversal of the value for all [`Printer`](printer::Printer)s, which turn events into
//! text. An event is a begin, a value or an end, with its position in the structure.
#![tactic(auto)]

mod bitmaps;
pub mod document;
pub mod event;
mod marks;
pub mod printer;
mod trees;
mod undo;
mod untracked;
