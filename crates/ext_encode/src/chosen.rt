//! Writes the extensions of an index one after another, in the order in which git writes them (gitformat-index,
//! "Extensions").

use ext_small::FsMonitor;
use ext_small::resolve_undo::ResolvePath;
use ext_tree::Tree;
use ext_untracked::UntrackedCache;

/// The extensions that are written, at most one of each.
#[derive(Clone, Copy)]
pub struct Chosen<'a> {
    /// The cache tree.
    pub tree: Option<&'a Tree>,
    /// Whether its directories are written in git's order, instead of their own.
    pub in_git_order: bool,
    /// The stages of resolved conflicts.
    pub resolve_undo: Option<&'a [ResolvePath]>,
    /// The untracked cache.
    pub untracked: Option<&'a UntrackedCache>,
    /// The answer of a file system monitor.
    pub fs_monitor: Option<&'a FsMonitor>,
    /// Whether the index is sparse.
    pub is_sparse: bool,
}
