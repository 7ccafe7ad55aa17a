//! Division of entries into merged and unmerged ones.

ghost use Rattle.std.specs.Prelude.{◌≡◌, All, Contains, IfOk, IsTrue, false};
ghost use Rattle.std.specs.List.{list_any};
ghost use Rattle.entry_list.specs.Order.{IsOrderedByPath};
ghost use Rattle.entry_list.specs.Record.{Record};
ghost use Rattle.tree_encode.specs.MergedSteps.{merged_entries, unmerged_entries};
ghost use Rattle.tree_encode.specs.Refusals.{HasPathPrefix};
ghost use Rattle.tree_encode.specs.Staged.{is_unmerged};

use crate::leaf::is_removed;
use entry_list::Entry;
use entry_list::slice::EntrySlice;
use entry_lookup::range::prefixed_entries_range;
use std::alloc::{AllocError, Global};

/// Returns whether an entry is unmerged: its stage isn't 0, and it doesn't have the flag `REMOVE`.
fn is_unmerged(entry: &Entry) -> bool
    ensures { result ≡ is_unmerged entry.now.flags.0 }
{
    !is_removed(entry) && entry.stage_raw() != 0
}

/// Returns whether one of the entries is unmerged.
pub(crate) fn has_unmerged(entries: &[Entry]) -> bool
    ensures { result ≡ list_any (λ e. is_unmerged e.flags.0) entries.now }
{
    entries.iter().any(|entry| is_unmerged(entry))
}

/// Returns copies of the merged entries, and copies of the unmerged entries.
pub(crate) fn partition(
    alloc: Global,
    entries: &[Entry],
) -> Result<(Vec<Entry>, Vec<Entry>), AllocError>
    ensures merged { IfOk result (λ p. p.0.items ≡ merged_entries entries.now) }
    ensures unmerged { IfOk result (λ p. p.1.items ≡ unmerged_entries entries.now) }
{
    let mut merged = Vec::new(alloc);
    let mut unmerged = Vec::new(alloc);
    for entry in entries {
        let copy = entry.clone()?;
        if is_unmerged(entry) {
            unmerged.push(copy)?;
        } else {
            merged.push(copy)?;
        }
    }
    Ok((merged, unmerged))
}

/// Returns whether an entry is below the directory with the path `parent`. That path has a slash at the end, except the
/// root's, which is empty.
pub(crate) fn has_entry_below(entries: &EntrySlice<'_>, parent: &[u8]) -> bool
    requires { IsOrderedByPath entries.now }
    ensures yes { IsTrue result
        → (r : Record) × Contains entries.now r × HasPathPrefix r.path parent.now }
    ensures no { result ≡ false → All (λ r. HasPathPrefix r.path parent.now → ⊥) entries.now }
{
    match prefixed_entries_range(entries, parent) {
        Some(range) => range.start < range.end,
        None => false,
    }
}
