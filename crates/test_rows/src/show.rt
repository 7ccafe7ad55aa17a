//! Formats the values of answers as lines of text.

pub mod extension;
pub mod state;
pub mod untracked;
