//! Writes extensions one after another.

ghost use Rattle.std.specs.Prelude.{◌≡◌};
ghost use Rattle.index_parts.specs.Puts.{Puts};
ghost use Rattle.ext_tree.specs.TreeImage.{tree_item};
ghost use Rattle.ext_encode.specs.MonitorImage.{monitor_item};
ghost use Rattle.ext_encode.specs.ResolveUndoImage.{resolve_undo_item};
ghost use Rattle.ext_encode.specs.UntrackedImage.{cache_item};
ghost use Rattle.ext_encode.specs.Chosen.{extensions_of, sparse_items};
ghost use Rattle.ext_encode.specs.Lent.{chosen_cache, chosen_cache_len, chosen_monitor, chosen_monitor_len};
ghost use Rattle.ext_encode.specs.Lent.{chosen_tree, chosen_tree_len, chosen_undo, chosen_undo_len};
ghost use Rattle.ext_encode.specs.Listing.{AreLens};
ghost use Rattle.ext_encode.specs.PutsItems.{PutsIf, PutsItems, chosen_bytes};

use crate::chosen::Chosen;
use crate::{Lens, fs_monitor, resolve_undo, untracked_cache};
use ext_small::FsMonitor;
use ext_small::resolve_undo::ResolvePath;
use ext_tree::Tree;
use ext_tree::write::put_item;
use ext_untracked::UntrackedCache;
use index_extensions::sparse;
use index_parts::hash::Kind;
use index_parts::hash::io::Out;
use std::io;

/// Writes a cache tree, if there is one. `len` is the length of its content in bytes.
///
/// `in_git_order` is whether its directories are written in git's order.
fn put_tree<W: Out>(
    tree: Option<&Tree>,
    in_git_order: bool,
    len: Option<u32>,
    out: &mut W,
) -> io::Result<()>
    requires len { len ≡ chosen_tree_len in_git_order tree }
    ensures { PutsIf W.Out out.old out.new result tree_item (chosen_tree in_git_order tree.entry) }
{
    match (tree, len) {
        (Some(tree), Some(len)) => put_item(tree, in_git_order, len, out),
        _ => Ok(()),
    }
}

/// Writes resolve-undo, if there is any. `len` is the length of its content in bytes.
fn put_resolve_undo<W: Out>(
    paths: Option<&[ResolvePath]>,
    len: Option<u32>,
    out: &mut W,
) -> io::Result<()>
    requires len { len ≡ chosen_undo_len paths }
    ensures { PutsIf W.Out out.old out.new result resolve_undo_item (chosen_undo paths.entry) }
{
    match (paths, len) {
        (Some(paths), Some(len)) => resolve_undo::put_item(paths, len, out),
        _ => Ok(()),
    }
}

/// Writes an untracked cache with ids of the hash algorithm `kind`, if there is one. `len` is the length of its content
/// in bytes.
fn put_untracked<W: Out>(
    cache: Option<&UntrackedCache>,
    kind: Kind,
    len: Option<u32>,
    out: &mut W,
) -> io::Result<()>
    requires len { len ≡ chosen_cache_len kind cache }
    ensures { PutsIf W.Out out.old out.new result (cache_item kind) (chosen_cache cache.entry) }
{
    match (cache, len) {
        (Some(cache), Some(len)) => untracked_cache::put_item(cache, kind, len, out),
        _ => Ok(()),
    }
}

/// Writes the answer of a file system monitor, if there is one. `len` is the length of its content in bytes.
fn put_monitor<W: Out>(monitor: Option<&FsMonitor>, len: Option<u32>, out: &mut W) -> io::Result<()>
    requires len { len ≡ chosen_monitor_len monitor }
    ensures { PutsIf W.Out out.old out.new result monitor_item (chosen_monitor monitor.entry) }
{
    match (monitor, len) {
        (Some(monitor), Some(len)) => fs_monitor::put_item(monitor, len, out),
        _ => Ok(()),
    }
}

/// Writes the mark of a sparse index, if the index is sparse.
fn put_sparse<W: Out>(is_sparse: bool, out: &mut W) -> io::Result<()>
    ensures { PutsItems W.Out out.old out.new result (sparse_items is_sparse) }
{
    if is_sparse {
        return sparse::write_to(out);
    }
    Ok(())
}

/// Writes the extensions one after another. It allocates no memory.
///
/// `lens` has the lengths of their contents, as [`Lens::of`] returns them. An error occurs only if the writer failed,
/// which then took a prefix of the bytes.
#[tactic(auto, unfolding(crate::specs::Chosen::items))]
pub fn put_items<W: Out>(chosen: Chosen<'_>, kind: Kind, lens: Lens, out: &mut W) -> io::Result<()>
    requires lens { AreLens kind (extensions_of chosen) lens }
    ensures written { Puts W.Out out.old out.new result (chosen_bytes kind chosen.entry) }
{
    put_tree(chosen.tree, chosen.in_git_order, lens.tree, out)?;
    put_resolve_undo(chosen.resolve_undo, lens.resolve_undo, out)?;
    put_untracked(chosen.untracked, kind, lens.untracked, out)?;
    put_monitor(chosen.fs_monitor, lens.fs_monitor, out)?;
    put_sparse(chosen.is_sparse, out)
}
