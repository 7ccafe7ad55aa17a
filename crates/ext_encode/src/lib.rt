//! Writes extensions: resolve-undo, the untracked cache and the file system monitor as they were read, and all
//! extensions in git's order, followed by the end marker (gitformat-index, "Extensions").
#![tactic(auto)]

pub mod chosen;
pub mod fs_monitor;
pub mod items;
pub mod laws;
pub mod lens;
pub mod marker;
mod marks;
pub mod resolve_undo;
pub mod untracked_cache;
mod untracked_sizes;

pub use lens::Lens;
