//! Decodes the small extensions: resolve-undo, file system monitor, offset table and end marker (gitformat-index,
//! "Extensions").
#![tactic(auto)]

pub mod fs_monitor;
pub mod index_entry_offset_table;
pub mod marks;
pub mod resolve_undo;

pub use fs_monitor::FsMonitor;
