//! Removal of the entries that conflict with an entry.

ghost use Rattle.std.specs.Prelude.{◌≡◌, ◌≤◌, ◌++◌, ◌∷◌, [], drop, false, length, nat_eq, take};
ghost use Rattle.std.specs.List.{AllWithin, starts_with};
ghost use Rattle.entry_list.specs.Order.{IsStrictlyOrdered};
ghost use Rattle.entry_list.specs.Record.{with_path};
ghost use Rattle.entry_edit.specs.EditSteps.{RemovesOthers, is_other, entry_record, staying};

use crate::df_conflicts::first_above;
use crate::near_end::path_start;
use base_search::prefix::compare_pieces;
use entry_list::slice::EntrySlice;
use entry_list::{Entry, Pathless};

/// Returns whether the path is below the directory.
fn is_below(folder: &[u8], path: &[u8]) -> bool
    ensures { result ≡ starts_with nat_eq path.now (folder.now ++ 47 ∷ []) }
{
    compare_pieces(path, folder, b"/").is_eq()
}

/// Returns whether `other` is replaced by the new entry, but has another path or another stage.
pub fn is_other(entry: Pathless, path: &[u8], other: &Entry, other_path: &[u8]) -> bool
    ensures { result ≡ is_other (with_path path.now entry) (entry_record other_path.now other.now) }
{
    let stage = entry.flags.stage_raw();
    let other_stage = other.stage_raw();
    if other_path == path {
        return stage == 0 && other_stage != 0;
    }
    other_stage == stage && (is_below(path, other_path) || is_below(other_path, path))
}

/// Returns an index before which no entry is removed. If some are files where the path needs a directory, it is that of
/// the first. Otherwise it is that of the first entry whose path isn't before this one.
pub fn first_other(entries: &EntrySlice<'_>, entry: Pathless, path: &[u8]) -> usize
    ensures in_range { result ≤ length entries.now }
    ensures front { IsStrictlyOrdered entries.now
        → AllWithin (λ r. is_other (with_path path.now entry) r ≡ false) entries.now 0 result }
{
    let start = path_start(entries, path);
    match first_above(entries, path, entry.flags.stage(), 0) {
        Some(place) => place.min(start),
        None => start,
    }
}

/// Moves the entries that stay to the start, in order, and returns their number.
fn gather(entries: &mut [Entry], storage: &[u8], entry: Pathless, path: &[u8]) -> usize
    ensures inside { result ≤ length entries.old }
    ensures stay { take result entries.new ≡ staying storage.now (with_path path.now entry)
        entries.old }
{
    let mut kept = 0;
    for place in 0..entries.len() {
        let other = &entries[place];
        if !is_other(entry, path, other, other.path_in(storage)) {
            entries.swap(kept, place);
            kept += 1;
        }
    }
    kept
}

/// Removes the entries from `start` on that the new entry replaces.
fn remove_from(entries: &mut Vec<Entry>, storage: &[u8], start: usize, entry: Pathless, path: &[u8])
    requires { start ≤ length entries.old.items }
    ensures { entries.new.items ≡ take start entries.old.items
        ++ staying storage.now (with_path path.now entry) (drop start entries.old.items) }
{
    let (_, back) = entries.as_mut_slice().split_at_mut(start);
    let kept = gather(back, storage, entry, path);
    entries.truncate(start + kept);
}

/// Removes the entries that the new entry replaces and that have another path or another stage. It reads only the
/// entries from the first of them on, or from the path on.
pub(crate) fn remove_others(entries: &mut Vec<Entry>, storage: &[u8], entry: Pathless, path: &[u8])
    ensures { RemovesOthers (with_path path.now entry) storage.now entries.old entries.new }
{
    let start = first_other(&EntrySlice::new(entries, storage), entry, path);
    remove_from(entries, storage, start, entry, path);
}
