//! What the commands of `index-tool` share: why one ended without its result, the index in a file, and the writing of
//! an index.
#![tactic(auto)]

pub mod cause;
pub mod failure;
pub mod index;
pub mod nul;
pub mod storing;
