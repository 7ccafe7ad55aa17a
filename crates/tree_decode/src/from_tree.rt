//! Lists the leaves of a tree.

ghost use Rattle.tree_decode.specs.TreeCalls.{GivesLeaves};

pub use crate::error::{Error, Traversal};
use crate::read::read_tree;
use crate::walk::Walk;
use entry_list::list::EntryList;
use index_parts::check::ComponentCheck;
use index_parts::hash::ObjectId;
use index_parts::object::Find;
use std::alloc::Global;

/// Returns the leaves of a tree, and of the trees below it, in the order of the trees' entries ("Pro Git", "Git
/// Objects").
///
/// A leaf is an entry that isn't a tree: a file, a link or a commit. Its path consists of the names that lead to it,
/// joined by `/`. Its mode is that of its kind, and its stat numbers and flags are 0.
///
/// Each object that is read counts against `max_objects`, before `objects` is used. A tree is read completely before
/// its names are checked. Each name is checked before its entry is listed or read. The name of a link is checked as
/// that of a link.
///
/// If each tree that is read has its entries in git's order, and no name contains a slash, the leaves strictly
/// increase.
///
/// # Errors
///
/// The first error is returned: [`Error::InvalidComponent`] for a name that `check` rejects, and [`Error::Traversal`]
/// for a tree that can't be read. [`Error::Memory`] means that memory couldn't be allocated.
pub fn leaves_of<F: Find, C: ComponentCheck>(
    alloc: Global,
    tree: &ObjectId,
    objects: &F,
    check: &C,
    max_objects: usize,
) -> Result<EntryList, Error>
    ensures { GivesLeaves (F.found objects.now) (C.refusal check.now) tree.now max_objects result }
{
    let kind = tree.kind();
    let mut walk = Walk::new(alloc);
    let mut next = *tree;
    for _ in 0..max_objects {
        let bytes = read_tree(alloc, objects, next, kind)?;
        walk.begin(bytes)?;
        match walk.next_tree(alloc, kind, check)? {
            Some(id) => next = id,
            None => return Ok(walk.into_leaves()),
        }
    }
    Err(Error::Traversal(Traversal::TooManyObjects))
}
