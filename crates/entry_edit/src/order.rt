//! Changes in the order of their paths, if the order makes no difference.

ghost use Rattle.std.specs.Prelude.{◌≡◌, IsNone, ◌++◌, ◌∷◌, [], IfOk, IfSome, IsTrue, map, true};
ghost use Rattle.entry_edit.specs.Changes.{change_path};
ghost use Rattle.entry_edit.specs.Reorders.{AreInOrder, IsReorderedTo, StayAsTheyAre, are_nested, is_inside_folder};
ghost use Rattle.base_search.specs.Prefix.{prefix_cmp};

use crate::change::Change;
use base_search::ordered::{Ordered, end_from};
use base_search::prefix::compare_pieces;
use std::alloc::{AllocError, Global};
use std::cmp::Ordering;

/// Changes, compared by whether their paths are in a directory.
#[derive(Clone, Copy)]
struct InFolder<'a> {
    changes: &'a [Change<'a>],
    folder: &'a [u8],
}

impl Ordered for InFolder<'_> {
    ghost answers = { λ s. map (λ c. prefix_cmp (s.folder.now ++ 47 ∷ []) (change_path c)) s.changes.now };

    fn len(&self) -> usize {
        self.changes.len()
    }

    fn compare(&self, place: usize) -> Ordering {
        compare_pieces(self.changes[place].path(), self.folder, b"/")
    }
}

/// Returns whether one of the paths is a directory of another. Only paths after a directory can be in it, so only those
/// are searched. It makes few comparisons if few come before the directory's paths.
fn are_nested(changes: &[Change<'_>]) -> bool
    requires { AreInOrder changes.now }
    ensures { result ≡ are_nested changes.now }
{
    for place in 0..changes.len() {
        let folder = changes[place].path();
        let places = InFolder {
            changes: &*changes,
            folder,
        };
        let end = end_from(&places, place + 1);
        if places.compare(end - 1).is_eq() {
            return true;
        }
    }
    false
}

/// Returns whether the path of `change` is below that of `other`, as in a directory.
fn is_below(change: &Change<'_>, other: &Change<'_>) -> bool
    ensures { result ≡ is_inside_folder (change_path other.now) (change_path change.now) }
{
    compare_pieces(change.path(), other.path(), b"/").is_eq()
}

/// Returns whether, of two adjacent changes, the path of one is a directory of the other's.
fn are_adjacent_nested(changes: &[Change<'_>]) -> bool
    ensures { IsTrue result → are_nested changes.now ≡ true }
{
    for place in 1..changes.len() {
        let before = &changes[place - 1];
        let change = &changes[place];
        if is_below(before, change) || is_below(change, before) {
            return true;
        }
    }
    false
}

/// Returns whether the paths never fall.
fn are_in_order(changes: &[Change<'_>]) -> bool
    ensures { IsTrue result → AreInOrder changes.now }
{
    changes.is_sorted_by(|a, b| a.path().cmp(b.path()).is_le())
}

/// Returns the changes in the order of their paths. Changes of one path are in their given order. The effect on an
/// index is that of the given changes.
///
/// None if they are in order already, or if a path is a directory of another. It is an error if there is no memory.
pub fn in_order<'a>(
    alloc: Global,
    changes: &[Change<'a>],
) -> Result<Option<Vec<Change<'a>>>, AllocError>
    ensures same { IfOk result (λ made. IfSome made (λ ds. IsReorderedTo changes.now ds.items)) }
    ensures none { IfOk result (λ made. IsNone made → StayAsTheyAre changes.now) }
{
    if are_in_order(changes) || are_adjacent_nested(changes) {
        return Ok(None);
    }
    let mut ordered = Vec::with_capacity(alloc, changes.len())?;
    ordered.extend_from_slice(changes)?;
    ordered.sort_by(|a, b| a.path().cmp(b.path()))?;
    if are_nested(&ordered) {
        return Ok(None);
    }
    Ok(Some(ordered))
}
