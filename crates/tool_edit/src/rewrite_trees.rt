//! The command `rewrite-trees`.

ghost use Rattle.gix_index.specs.Tree.{node_of};
ghost use Rattle.tool_edit.specs.Trees.{GivesWithTrees, PutsTree, RewritesTrees};

use crate::rewrite::{Form, choice};
use crate::trees::tree_of;
use gix_index::extension::Tree;
use gix_index::file::folder::Folder;
use gix_index::hash::Kind;
use gix_index::{File, State};
use std::alloc::Global;
use tool_errors::failure::Failure;
use tool_errors::index::opened_at;
use tool_errors::storing::{commit_at, lock_at};

/// Which counts a rebuilt cache tree has, and so which trees' ids.
#[derive(Clone, Copy)]
pub enum Counts {
    /// The counts that the cache tree had before too, so that it names no other tree.
    Known,
    /// All counts.
    All,
}

/// Puts the rebuilt cache tree `tree` into an index that has the entries it was made of.
fn put_tree(state: &mut State, counts: Counts, tree: Tree)
    ensures { PutsTree counts (node_of tree) state.old state.new }
{
    match counts {
        Counts::Known => state.renew_tree(tree),
        Counts::All => state.set_tree(tree),
    }
}

/// Returns the index in a file, with the shared index that it links to and with a cache tree that is made of its
/// entries.
fn with_rebuilt_tree<'a, D: Folder>(
    folder: &D,
    alloc: Global,
    counts: Counts,
    kind: Kind,
    path: &'a str,
) -> Result<File, Failure<'a>>
    ensures { GivesWithTrees counts D.Folder folder.now kind path.now result }
{
    let index = opened_at(folder, alloc, kind, path)?;
    let tree = tree_of(alloc, &index, path)?;
    let (mut state, path) = index.into_parts();
    put_tree(&mut state, counts, tree);
    Ok(File::from_state(state, path))
}

/// Writes the index in a file, with a cache tree that is made of its entries, to another path or to the same path. The
/// shared index that it links to is included. Git computes the tree again for a directory whose tree has no count, and
/// so no id.
///
/// The file at the path `to` is locked before the other is opened, as git locks an index. It gets the modification time
/// of the file that is read, or else the time that [`commit_at`] gives it. Nothing is written before the tree is made.
///
/// # Errors
///
/// With [`Failure::Lock`] or [`Failure::Rewrite`] the file at `to` can't be written. Any other failure concerns the
/// file that is read. After a failure what was at the path `to` is there as before.
pub fn rewrite_trees<'a, D: Folder>(
    folder: &mut D,
    alloc: Global,
    counts: Counts,
    kind: Kind,
    path: &'a str,
    to: &'a str,
) -> Result<(), Failure<'a>>
    ensures { RewritesTrees counts D.Folder folder.old folder.new kind path.now to.now result }
{
    let lock = lock_at(folder, alloc, to)?;
    match with_rebuilt_tree(folder, alloc, counts, kind, path) {
        Ok(index) => {
            let options = choice(Form::AsRead, index.version());
            commit_at(folder, alloc, index, lock, options, to)
        }
        Err(failure) => {
            lock.release(folder);
            Err(failure)
        }
    }
}
