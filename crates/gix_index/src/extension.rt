//! The extensions of an index file (gitformat-index, "Extensions").

pub mod decode;

pub use ext_small::{FsMonitor, fs_monitor, index_entry_offset_table, resolve_undo};
pub use ext_split::link;
pub use ext_split::link::Link;
pub use ext_tree as tree;
pub use ext_tree::Tree;
pub use ext_untracked as untracked_cache;
pub use ext_untracked::UntrackedCache;
pub use index_decode::extension::is_understood;
pub use index_extensions::{Iter, MIN_SIZE, Signature, end_of_index_entry, sparse};
