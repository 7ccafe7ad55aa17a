//! Computes the lengths of the contents of extensions, before any of them is written.

ghost use Rattle.std.specs.Prelude.{◌≡◌, ◌≤◌, ◌<◌, ◌^◌, length, IfNone, IfSome};
ghost use Rattle.ext_encode.specs.Chosen.{extensions_of};
ghost use Rattle.ext_encode.specs.Lent.{chosen_cache_len, chosen_monitor_len, chosen_tree_len};
ghost use Rattle.ext_encode.specs.Lent.{chosen_undo_len};
ghost use Rattle.ext_encode.specs.Listing.{AreLens, len_within_32, sparse_len, whole_len};
ghost use Rattle.ext_encode.specs.PutsItems.{chosen_bytes};

use crate::chosen::Chosen;
use crate::{fs_monitor, resolve_undo, untracked_cache};
use ext_small::FsMonitor;
use ext_small::resolve_undo::ResolvePath;
use ext_tree::Tree;
use ext_untracked::UntrackedCache;
use index_parts::hash::Kind;

/// The length in bytes of the content of each extension that is present.
#[derive(Clone, Copy, Debug, PartialEq, Eq)]
pub struct Lens {
    /// The length for the cache tree.
    pub tree: Option<u32>,
    /// The length for resolve-undo.
    pub resolve_undo: Option<u32>,
    /// The length for the untracked cache.
    pub untracked: Option<u32>,
    /// The length for the file system monitor.
    pub fs_monitor: Option<u32>,
}

/// Returns the content length of a cache tree, if there is one, or `None` if it doesn't fit into 32 bits.
///
/// `in_git_order` is whether its directories are written in git's order.
#[tactic(auto, using(ext_tree::proofs::GitOrders::same_length_if))]
fn tree_len(tree: Option<&Tree>, in_git_order: bool) -> Option<Option<u32>>
    ensures { result ≡ len_within_32 (chosen_tree_len in_git_order tree.entry) }
{
    match tree {
        None => Some(None),
        Some(tree) => match tree.content_len() {
            Some(len) => Some(Some(len)),
            None => None,
        },
    }
}

/// Returns the content length of resolve-undo, if there is any, or `None` if it doesn't fit into 32 bits.
fn resolve_undo_len(paths: Option<&[ResolvePath]>) -> Option<Option<u32>>
    ensures { result ≡ len_within_32 (chosen_undo_len paths.entry) }
{
    match paths {
        None => Some(None),
        Some(paths) => match resolve_undo::content_len(paths) {
            Some(len) => Some(Some(len)),
            None => None,
        },
    }
}

/// Returns the content length of an untracked cache with ids of the hash algorithm `kind`, if there is one, or `None`
/// if it doesn't fit into 32 bits.
fn untracked_len(cache: Option<&UntrackedCache>, kind: Kind) -> Option<Option<u32>>
    ensures { result ≡ len_within_32 (chosen_cache_len kind cache.entry) }
{
    match cache {
        None => Some(None),
        Some(cache) => match untracked_cache::content_len(cache, kind) {
            Some(len) => Some(Some(len)),
            None => None,
        },
    }
}

/// Returns the content length of a file system monitor's answer, if there is one, or `None` if it doesn't fit into 32
/// bits.
fn monitor_len(monitor: Option<&FsMonitor>) -> Option<Option<u32>>
    ensures { result ≡ len_within_32 (chosen_monitor_len monitor.entry) }
{
    match monitor {
        None => Some(None),
        Some(monitor) => match fs_monitor::content_len(monitor) {
            Some(len) => Some(Some(len)),
            None => None,
        },
    }
}

/// Returns the length in bytes of an extension with this content length, or 0 if there is no extension.
fn whole_len(len: Option<u32>) -> u64
    ensures len { result ≡ whole_len len }
    ensures small { result < 0x100000008 }
{
    match len {
        Some(len) => 8 + u64::from(len),
        None => 0,
    }
}

/// Returns the length in bytes of the mark of a sparse index, or 0 if the index isn't sparse.
fn sparse_len(is_sparse: bool) -> u64
    ensures { result ≡ sparse_len is_sparse }
{
    if is_sparse { 8 } else { 0 }
}

impl Lens {
    /// Returns the content lengths of the extensions in a file of the hash algorithm `kind`. It allocates no memory.
    ///
    /// It returns `None` if a content has more than 2^32 - 1 bytes.
    pub fn of(chosen: Chosen<'_>, kind: Kind) -> Option<Lens>
        ensures some { IfSome result (AreLens kind (extensions_of chosen.entry)) }
        ensures none { IfNone result (2 ^ 32 ≤ length (chosen_bytes kind chosen.entry)) }
    {
        let Some(tree) = tree_len(chosen.tree, chosen.in_git_order) else {
            return None;
        };
        let Some(resolve_undo) = resolve_undo_len(chosen.resolve_undo) else {
            return None;
        };
        let Some(untracked) = untracked_len(chosen.untracked, kind) else {
            return None;
        };
        let Some(fs_monitor) = monitor_len(chosen.fs_monitor) else {
            return None;
        };
        Some(Lens {
            tree,
            resolve_undo,
            untracked,
            fs_monitor,
        })
    }

    /// Returns the length in bytes of all these extensions, with the mark of a sparse index.
    pub fn total(&self, chosen: Chosen<'_>, kind: Kind) -> u64
        requires { AreLens kind (extensions_of chosen) self.now }
        ensures len { result ≡ length (chosen_bytes kind chosen.entry) }
        ensures small { result < 0x800000000 }
    {
        whole_len(self.tree)
            + whole_len(self.resolve_undo)
            + whole_len(self.untracked)
            + whole_len(self.fs_monitor)
            + sparse_len(chosen.is_sparse)
    }
}
