//! Text in a buffer that is written in blocks, and what is appended to it: digits, ids, escaped bytes and quoted paths.
#![tactic(auto)]

pub mod append;
pub mod block;
pub mod digits;
pub mod escape;
pub mod lines;
pub mod prepend;
pub mod quote;
