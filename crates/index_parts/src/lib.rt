//! The basic parts of a git index file: numbers, object ids, digests, and tree objects with the modes of their entries.
#![tactic(auto)]

pub mod block;
mod bytes;
pub mod check;
pub mod encode;
pub mod hash;
pub mod object;
pub mod path;
pub mod read;
pub mod util;
