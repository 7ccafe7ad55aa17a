//! Decodes an index from the bytes of a file (gitformat-index).
#![tactic(auto)]

pub mod decode;
pub mod extension;
pub mod trailer;
