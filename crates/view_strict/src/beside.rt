//! Entries at the position of another entry: below a file, or in a sparse directory.

ghost use Rattle.std.specs.Prelude.{◌≡◌, ◌<◌, ◌==◌, ◌++◌, ℕ, List, length};
ghost use Rattle.std.specs.List.{HoldsAt};
ghost use Rattle.entry_list.specs.Order.{IsOrderedByPath, record_stage};
ghost use Rattle.view_strict.specs.Beside.{IsFirstPlace, counts_in, directory_prefix, has_sides_beside, is_beside};
ghost use Rattle.view_strict.specs.Beside.{lies_in};

use base_search::ordered::{Ordered, part};
use entry_edit::df_conflicts::has_sides;
use entry_fields::entry::StageRaw;
use entry_list::slice::EntrySlice;
use entry_lookup::search::Prefix;

/// Returns the bytes between a path and the names in it: none for a sparse directory, and else a slash.
fn tail_of(whole: bool) -> &'static [u8]
    ensures { (path : List ℕ) → path ++ result.now ≡ directory_prefix whole path }
{
    if whole { b"" } else { b"/" }
}

/// Returns whether the entry at index `place` counts, if its path begins with `path`.
fn counts_in(
    entries: &EntrySlice<'_>,
    place: usize,
    whole: bool,
    path: &[u8],
    stage: StageRaw,
) -> bool
    requires { place < length entries.now }
    ensures { HoldsAt (λ r. counts_in whole path.now stage r ≡ result) entries.now place }
{
    if whole {
        return entries.path(place) != path;
    }
    entries.entry(place).stage_raw() == stage
}

/// Returns the index of the first entry in the sparse directory at `path`, or below a file of this stage at `path`.
fn first_in(entries: &EntrySlice<'_>, whole: bool, path: &[u8], stage: StageRaw) -> Option<usize>
    requires { IsOrderedByPath entries.now }
    ensures { IsFirstPlace (lies_in whole path.now stage) entries.now result }
{
    let places = Prefix {
        entries,
        prefix: path,
        tail: tail_of(whole),
    };
    let low = part(&places, false).0;
    for place in low..entries.len() {
        if places.compare(place).is_ne() {
            return None;
        }
        if counts_in(entries, place, whole, path, stage) {
            return Some(place);
        }
    }
    None
}

/// Returns the index of the first entry in or below the entry at index `place`. That entry is a file of the same stage,
/// or a sparse directory. Apart from one search, it examines only entries with that prefix, up to the one that it
/// returns.
pub fn first_beside(entries: &EntrySlice<'_>, place: usize) -> Option<usize>
    requires within { place < length entries.now }
    requires ordered { IsOrderedByPath entries.now }
    ensures { HoldsAt (λ r. IsFirstPlace (is_beside r) entries.now result) entries.now place }
{
    let entry = entries.entry(place);
    let path = entries.path(place);
    first_in(entries, entry.mode.is_sparse(), path, entry.stage_raw())
}

/// Returns whether the entry at index `place` is merged.
fn is_merged(entries: &EntrySlice<'_>, place: usize) -> bool
    requires { place < length entries.now }
    ensures { HoldsAt (λ r. (record_stage r == 0) ≡ result) entries.now place }
{
    entries.entry(place).stage_raw() == 0
}

/// Returns whether the entry at index `place` is merged and its path also has sides of a conflict.
pub fn has_sides_beside(entries: &EntrySlice<'_>, place: usize) -> bool
    requires within { place < length entries.now }
    requires ordered { IsOrderedByPath entries.now }
    ensures { HoldsAt (λ r. has_sides_beside r entries.now ≡ result) entries.now place }
{
    if is_merged(entries, place) {
        return has_sides(entries, entries.path(place));
    }
    false
}
