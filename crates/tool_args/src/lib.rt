//! The arguments of `index-tool`: which command they are, or the answer if they are none.
#![tactic(auto)]

pub mod answer;
mod cause;
pub mod command;
mod refusal;
mod table;
#[cfg(test)]
mod tests;
mod values;
pub mod words;

pub use answer::Answer;
pub use command::{Command, Input, Reading, Writing};
pub use words::parse;
