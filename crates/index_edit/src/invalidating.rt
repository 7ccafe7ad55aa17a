//! Invalidates the paths of changes (gitformat-index, "Cache tree" and "Untracked cache").

ghost use Rattle.std.specs.Prelude.{◌≡◌};
ghost use Rattle.ext_tree.specs.Tree.{node_of};
ghost use Rattle.ext_untracked.specs.Untracked.{cache_of};
ghost use Rattle.index_edit.specs.Invalidated.{CountsNoMore, InvalidatesAll, UnlistsAll};
ghost use Rattle.index_edit.specs.Invalidated.{all_invalidated, all_unlisted};

use entry_edit::change::Change;
use ext_tree::Tree;
use ext_tree::invalidate::invalidate;
use ext_untracked::{UntrackedCache, invalidation};

/// Invalidates the path of each change, one after another.
fn invalidate_each(tree: &mut Tree, changes: &[Change<'_>])
    ensures is { node_of tree.new ≡ all_invalidated changes.now (node_of tree.old) }
    ensures counts { CountsNoMore (Some tree.old) (Some tree.new) }
{
    for change in changes {
        invalidate(tree, change.path());
    }
}

/// Invalidates the path of each change, one after another, if there is a tree.
pub(crate) fn invalidate_all(tree: &mut Option<Tree>, changes: &[Change<'_>])
    ensures is { InvalidatesAll changes.now tree.old tree.new }
    ensures counts { CountsNoMore tree.old tree.new }
{
    if let Some(tree) = tree {
        invalidate_each(tree, changes);
    }
}

/// Invalidates the path of each change in an untracked cache, one after another.
fn unlist_each(cache: &mut UntrackedCache, changes: &[Change<'_>])
    ensures { cache_of cache.new ≡ all_unlisted changes.now (cache_of cache.old) }
{
    for change in changes {
        invalidation::invalidate(cache, change.path());
    }
}

/// Invalidates the path of each change in an untracked cache, one after another, if there is one.
pub(crate) fn unlist_all(cache: &mut Option<UntrackedCache>, changes: &[Change<'_>])
    ensures { UnlistsAll changes.now cache.old cache.new }
{
    if let Some(cache) = cache {
        unlist_each(cache, changes);
    }
}
