//! Changes of a git index that update the extensions about its entries: the cache tree, resolve-undo, the untracked
//! cache and the answer of a file system monitor (gitformat-index, "Extensions").
#![tactic(auto)]

pub mod dirty;
mod invalidating;
pub mod kept;
mod losing;
pub mod parts;
mod recording;
pub mod single;
pub mod update;
