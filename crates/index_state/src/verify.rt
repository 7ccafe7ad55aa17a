//! Checks the consistency of an index.

pub mod entries;
pub mod tree_ids;

ghost use Rattle.std.specs.Prelude.{◌≡◌, ◌↔◌, ℕ, false, IfErr, IfOk, IsOk, IsTrue, OnOk, Some, take};
ghost use Rattle.entry_list.specs.Order.{IsOrderedByPath, IsStrictlyOrdered};
ghost use Rattle.entry_list.specs.Sorted.{IsFirstFall};
ghost use Rattle.index_state.specs.State.{records};
ghost use Rattle.index_state.specs.SoundState.{OrderCause};
ghost use Rattle.index_state.specs.SoundState.{HasSoundTree, JudgesTree, TreeCheckCause};

use crate::State;
use bstr::BString;
use entry_list::slice::EntrySlice;
use ext_tree as tree;
use index_parts::object::Find;
use std::alloc::{AllocError, Global};

/// Returns the error that names the entry at an index and the one before it.
fn out_of_order(
    alloc: Global,
    entries: &EntrySlice<'_>,
    place: usize,
) -> Result<entries::Error, AllocError>
    requires { IsFirstFall entries.now (Some place) }
    ensures { IfOk result (OrderCause entries.now) }
{
    Ok(entries::Error::OutOfOrder {
        current_index: place,
        current_path: BString::from_slice(alloc, entries.path(place))?,
        current_stage: entries.entry(place).stage(),
        previous_path: BString::from_slice(alloc, entries.path(place - 1))?,
        previous_stage: entries.entry(place - 1).stage(),
    })
}

impl State {
    /// Checks that the entries strictly increase by path, then by stage, as a file has them and searches require. Their
    /// paths then never decrease, and the same holds for any number of first entries.
    ///
    /// The error names the first entry that isn't above the one before it. Memory is allocated only to name it.
    pub fn verify_entries(&self) -> Result<(), entries::Error>
        ensures ok { IsOk result ↔ IsStrictlyOrdered (records self.now) }
        ensures by_path { OnOk result (IsOrderedByPath (records self.now)) }
        ensures prefixes { OnOk result ((n : ℕ) → IsStrictlyOrdered (take n (records self.now))) }
        ensures fault { IfErr result (OrderCause (records self.now)) }
    {
        let entries = self.slice();
        let Some(place) = entries.first_fall() else {
            return Ok(());
        };
        Err(out_of_order(*self.parts.entries.allocator(), &entries, place)?)
    }

    /// Checks the cache tree, if there is one, by [`Tree::verify`](tree::Tree::verify), with objects if `use_find` is
    /// true. Then checks that no node of it counts more entries than the index has.
    ///
    /// The first error is returned, with nodes in preorder. Everything that `Tree::verify` checks comes before the
    /// first count. [`Memory`](tree::verify::Error::Memory) is returned as by `Tree::verify`, or instead of an error
    /// that names a node.
    pub fn verify_extensions<F: Find>(
        &self,
        alloc: Global,
        use_find: bool,
        objects: &F,
    ) -> Result<(), tree::verify::Error>
        ensures sound { use_find ≡ false → (IsOk result ↔ HasSoundTree self.now) }
        ensures fault { use_find ≡ false → IfErr result (TreeCheckCause self.now) }
        ensures objects { IsTrue use_find → JudgesTree (F.found objects.now) self.now result }
    {
        let Some(tree) = self.tree() else {
            return Ok(());
        };
        tree.verify(alloc, use_find, objects)?;
        tree.verify_counts(alloc, self.parts.entries.len())
    }
}
