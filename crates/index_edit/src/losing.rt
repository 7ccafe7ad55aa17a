//! Finds the sides of conflicts that a change removes, and records them.

ghost use Rattle.std.specs.Prelude.{◌≡◌, ◌∷◌, [], OnOk};
ghost use Rattle.entry_lookup.specs.Range.{LiesWithin, part_at};
ghost use Rattle.entry_edit.specs.EditSteps.{entry_record};
ghost use Rattle.index_edit.specs.Undone.{is_lost};
ghost use Rattle.index_edit.specs.RecordingSteps.{AddsAllLost, AddsLost, AreRisingIf, FindsLost, FindsOdd};

use crate::recording::record_side;
use entry_edit::change::Change;
use entry_edit::df_conflicts::has_df_conflict;
use entry_edit::near_end::path_range;
use entry_edit::others::{first_other, is_other};
use entry_list::slice::EntrySlice;
use entry_list::{Entry, Pathless};
use ext_small::resolve_undo::Paths;
use std::alloc::{AllocError, Global};
use std::ops::Range;

/// Returns whether the entry is a side of a conflict, and is removed by the change.
fn is_lost(change: &Change<'_>, entry: &Entry, path: &[u8]) -> bool
    ensures { result ≡ is_lost change.now (entry_record path.now entry.now) }
{
    if entry.stage_raw() == 0 {
        return false;
    }
    match change {
        Change::Stage {
            entry: new,
            path: new_path,
        } => is_other(*new, new_path, entry, path),
        Change::Unstage { path: gone } => path == *gone,
    }
}

/// Returns a range of indexes at which entries may be removed because of a conflict of a file with a directory at its
/// path. It starts at the first such index, and is `None` if there is no such entry.
fn odd_places(entries: &EntrySlice<'_>, entry: Pathless, path: &[u8]) -> Option<Range<usize>>
    ensures { FindsOdd path.now entry entries.now result }
{
    if has_df_conflict(entries, entry, path, 0) {
        return Some(first_other(entries, entry, path)..entries.len());
    }
    None
}

/// Returns indexes that include those of all sides that are removed, or `None` if none is removed.
fn lost_places(entries: &EntrySlice<'_>, change: &Change<'_>) -> Option<Range<usize>>
    ensures { FindsLost change.now entries.now result }
{
    match change {
        Change::Stage { entry, path } => {
            if entry.flags.stage_raw() != 0 {
                return odd_places(entries, *entry, path);
            }
            path_range(entries, path)
        }
        Change::Unstage { path } => path_range(entries, path),
    }
}

/// Records the entry if it is a side that is removed: among the recorded paths, which may be known to be `rising`, or
/// as the first. The error is an allocation failure.
#[tactic(auto, unfolding(crate::specs::Undone::all_recorded))]
fn record_if_lost(
    undo: &mut Option<Paths>,
    alloc: Global,
    path: &[u8],
    entry: &Entry,
    change: &Change<'_>,
    rising: bool,
) -> Result<(), AllocError>
    requires { AreRisingIf rising undo.old }
    ensures { OnOk result (AddsLost change.now (entry_record path.now entry.now ∷ []) undo.old
        undo.new) }
{
    if !is_lost(change, entry, path) {
        return Ok(());
    }
    if let Some(paths) = undo {
        return record_side(paths, path, entry, rising);
    }
    let mut paths = Vec::new(alloc);
    record_side(&mut paths, path, entry, rising)?;
    *undo = Some(paths);
    Ok(())
}

/// Records those removed sides that have their indexes in this range, from the first to the last. The error is an
/// allocation failure.
fn record_lost_at(
    undo: &mut Option<Paths>,
    alloc: Global,
    entries: &EntrySlice<'_>,
    places: Range<usize>,
    change: &Change<'_>,
    rising: bool,
) -> Result<(), AllocError>
    requires inside { LiesWithin entries.now places }
    requires rising { AreRisingIf rising undo.old }
    ensures { OnOk result (AddsLost change.now (part_at entries.now places) undo.old undo.new) }
{
    for place in places.start..places.end {
        let path = entries.path(place);
        record_if_lost(undo, alloc, path, entries.entry(place), change, rising)?;
    }
    Ok(())
}

/// Records the sides that the change removes, from the first to the last. The mode and id of each are stored at its
/// path, and replace what was recorded for its stage. If none is removed, nothing is recorded. Recorded paths that are
/// known to be `rising` stay so, and few of them are compared.
///
/// The error is an allocation failure.
pub(crate) fn record_lost(
    undo: &mut Option<Paths>,
    alloc: Global,
    entries: &EntrySlice<'_>,
    change: &Change<'_>,
    rising: bool,
) -> Result<(), AllocError>
    requires { AreRisingIf rising undo.old }
    ensures added { OnOk result (AddsAllLost change.now entries.now undo.old undo.new) }
    ensures rising { OnOk result (AreRisingIf rising undo.new) }
{
    if let Some(places) = lost_places(entries, change) {
        record_lost_at(undo, alloc, entries, places, change, rising)?;
    }
    Ok(())
}
