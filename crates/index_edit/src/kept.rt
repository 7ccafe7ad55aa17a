//! The extensions that are updated when entries change.

use ext_small::FsMonitor;
use ext_small::resolve_undo::Paths;
use ext_tree::Tree;
use ext_untracked::UntrackedCache;

/// The extensions about the entries of an index that are updated when these change.
#[derive(Drop)]
pub struct Kept {
    /// The cache tree.
    pub tree: Option<Tree>,
    /// Resolve-undo.
    pub undo: Option<Paths>,
    /// The untracked cache.
    pub untracked: Option<UntrackedCache>,
    /// The answer of a file system monitor.
    pub monitor: Option<FsMonitor>,
}
