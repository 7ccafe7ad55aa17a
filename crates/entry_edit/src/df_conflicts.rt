//! Conflicts of an entry with others, found by binary search.

ghost use Rattle.std.specs.Prelude.{◌≡◌, ◌<◌, IfSome, length, take};
ghost use Rattle.std.specs.List.{list_any};
ghost use Rattle.entry_list.specs.Order.{IsOrderedByPath, IsStrictlyOrdered};
ghost use Rattle.entry_lookup.specs.Range.{LiesWithin, part_of};
ghost use Rattle.entry_fields.specs.Flags.{stage_code, stage_number};
ghost use Rattle.entry_edit.specs.EditSteps.{IsClear, IsClearUpto, first_above, has_below, has_df_conflict, has_stage};
ghost use Rattle.entry_edit.specs.EditSteps.{is_of_stage, is_side_at};

use crate::near_end::{folder_range, key_place, path_range};
use entry_fields::entry::{Stage, StageRaw};
use entry_list::slice::EntrySlice;
use entry_list::{Entry, Pathless};
use std::ops::Range;

/// Returns whether the entry is of the stage or, without `same`, of another one.
fn is_of_stage(entry: &Entry, stage: StageRaw, same: bool) -> bool
    ensures { result ≡ is_of_stage same stage (stage_number entry.now.flags.0) }
{
    if same {
        return entry.stage_raw() == stage;
    }
    entry.stage_raw() != stage
}

/// Returns whether an entry in this range is of the stage or, without `same`, of another one.
fn has_stage(
    entries: &EntrySlice<'_>,
    places: Option<Range<usize>>,
    stage: StageRaw,
    same: bool,
) -> bool
    requires { IfSome places (LiesWithin entries.now) }
    ensures { result ≡ has_stage same stage (part_of entries.now places) }
{
    let Some(places) = places else {
        return false;
    };
    for place in places.start..places.end {
        if is_of_stage(entries.entry(place), stage, same) {
            return true;
        }
    }
    false
}

/// Returns whether sides of a conflict are at the path.
pub fn has_sides(entries: &EntrySlice<'_>, path: &[u8]) -> bool
    ensures { IsOrderedByPath entries.now
        → result ≡ list_any (is_side_at path.now) entries.now }
{
    has_stage(entries, path_range(entries, path), 0, false)
}

/// Returns whether entries of the stage are below the path, as in a directory.
fn has_below(entries: &EntrySlice<'_>, path: &[u8], stage: StageRaw) -> bool
    ensures { IsOrderedByPath entries.now → result ≡ has_below path.now stage entries.now }
{
    has_stage(entries, folder_range(entries, path), stage, true)
}

/// Returns the index of the first file of the stage whose path is a directory of `path`. The caller knows that there is
/// none at the slashes in the first `checked_len` bytes of the path, which are skipped.
pub(crate) fn first_above(
    entries: &EntrySlice<'_>,
    path: &[u8],
    stage: Stage,
    checked_len: usize,
) -> Option<usize>
    ensures in_range { IfSome result (λ i. i < length entries.now) }
    ensures first { IsStrictlyOrdered entries.now
        → IsClear (take checked_len path.now) (stage_code stage) entries.now
        → result ≡ first_above path.now stage entries.now }
{
    for at in checked_len..path.len() {
        if path[at] == b'/' {
            if let Ok(place) = key_place(entries, &path[..at], stage) {
                return Some(place);
            }
        }
    }
    None
}

/// Returns whether an entry is a file where the new one needs a directory, or the new one is a file where an entry
/// needs a directory. The caller knows that the first `checked_len` bytes of the path need no directory that is a file
/// of its stage.
pub fn has_df_conflict(
    entries: &EntrySlice<'_>,
    entry: Pathless,
    path: &[u8],
    checked_len: usize,
) -> bool
    ensures { IsStrictlyOrdered entries.now → IsClearUpto checked_len path.now entry entries.now
        → result ≡ has_df_conflict path.now entry entries.now }
{
    has_below(entries, path, entry.flags.stage_raw())
        || first_above(entries, path, entry.flags.stage(), checked_len).is_some()
}
