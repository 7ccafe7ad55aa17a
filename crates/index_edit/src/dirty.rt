//! The indexes of entries that may have changed since a monitor was asked, after changes of an index.

ghost use Rattle.std.specs.Prelude.{IfOk, IfSome};
ghost use Rattle.ext_bitmap.specs.Bitmap.{bitmap};
ghost use Rattle.entry_lookup.specs.Lookup.{has_key};
ghost use Rattle.entry_fields.specs.Flags.{stage_code};
ghost use Rattle.index_edit.specs.Dirty.{IsMonitorAfter, StaysSpellableMonitor, is_replaced, is_staged};
ghost use Rattle.index_edit.specs.DirtySteps.{IsDirtyAfter, IsSpellableDirty, MarksDirty, MarksPlaces, SetsBits};
ghost use Rattle.ext_small.specs.FsMonitor.{monitor_of};

use entry_edit::change::Change;
use entry_fields::entry::Stage;
use entry_list::slice::EntrySlice;
use entry_lookup::range::entry_index_by_path_and_stage;
use ext_bitmap::ewah;
use ext_bitmap::marks::bitmap_of;
use ext_encode::fs_monitor::is_within;
use ext_small::FsMonitor;
use std::alloc::{AllocError, Global};

/// The largest number of entries whose indexes fit 32 bits.
const MOST_ENTRIES: usize = u32::MAX as usize;

/// Sets the bit of the entry with a path and a stage, if there is one. An entry without a bit is skipped.
fn set_bit(bits: &mut [bool], entries: &EntrySlice<'_>, path: &[u8], stage: Stage)
    ensures { SetsBits (has_key path.now (stage_code stage)) entries.now bits.old bits.new }
{
    if let Some(place) = entry_index_by_path_and_stage(entries, path, stage) {
        if place < bits.len() {
            bits[place] = true;
        }
    }
}

/// Sets the bit of the entry that a change stages.
fn mark_change(bits: &mut [bool], entries: &EntrySlice<'_>, change: &Change<'_>)
    ensures { SetsBits (is_replaced change.now) entries.now bits.old bits.new }
{
    if let Change::Stage { entry, path } = change {
        set_bit(bits, entries, path, entry.flags.stage());
    }
}

/// Sets the bits of the entries that changes stage.
fn mark_changes(bits: &mut [bool], entries: &EntrySlice<'_>, changes: &[Change<'_>])
    ensures { SetsBits (is_staged changes.now) entries.now bits.old bits.new }
{
    for change in changes {
        mark_change(bits, entries, change);
    }
}

/// Sets the bits of the entries that have the path and the stage of one of the old entries at these indexes.
fn mark_places(
    bits: &mut [bool],
    entries: &EntrySlice<'_>,
    old: &EntrySlice<'_>,
    places: &ewah::Vec,
)
    ensures { MarksPlaces old.now (bitmap places.now) entries.now bits.old bits.new }
{
    let mut positions = places.positions();
    while let Some(position) = positions.next() {
        let Ok(place) = position else {
            return;
        };
        if place >= old.len() as u64 {
            return;
        }
        let place = place as usize;
        set_bit(bits, entries, old.path(place), old.entry(place).stage());
    }
}

/// Sets the bits of the entries that may have changed, after changes of the old entries.
fn mark_dirty(
    bits: &mut [bool],
    entries: &EntrySlice<'_>,
    old: &EntrySlice<'_>,
    places: &ewah::Vec,
    changes: &[Change<'_>],
)
    ensures { MarksDirty changes.now old.now (bitmap places.now) entries.now bits.old bits.new }
{
    mark_places(bits, entries, old, places);
    mark_changes(bits, entries, changes);
}

/// Returns the indexes of the entries that may have changed, after changes of the old entries, which a monitor
/// reported. The error is an allocation failure.
fn dirty_after(
    alloc: Global,
    old: &EntrySlice<'_>,
    entries: &EntrySlice<'_>,
    monitor: &FsMonitor,
    changes: &[Change<'_>],
) -> Result<Option<ewah::Vec>, AllocError>
    ensures is { IfOk result (IsDirtyAfter changes.now old.now entries.now (monitor_of
        monitor.now)) }
    ensures spellable { IfOk result (λ made. IfSome made (λ b. IsSpellableDirty (bitmap b))) }
{
    if !is_within(monitor, old.len() as u64) {
        return Ok(None);
    }
    if entries.len() > MOST_ENTRIES {
        return Ok(None);
    }
    let mut bits = Vec::new(alloc);
    bits.resize(entries.len(), false)?;
    mark_dirty(&mut bits, entries, old, monitor.entry_dirty(), changes);
    Ok(Some(bitmap_of(alloc, &bits)?))
}

/// Returns the answer of a monitor about the old entries, adjusted to the new entries after the changes.
///
/// The bits are moved with their entries. An entry that a change stages may have changed. The result is `None` if the
/// answer was about more entries than there were, if its bitmap is incomplete, or if there are 2^32 entries or more.
/// Without a change the answer is unchanged. If the answer could be encoded, it still can be. Each bit that was set and
/// each change costs one search.
///
/// The error is an allocation failure.
pub(crate) fn monitor_after(
    alloc: Global,
    old: &EntrySlice<'_>,
    entries: &EntrySlice<'_>,
    monitor: &Option<FsMonitor>,
    changes: &[Change<'_>],
) -> Result<Option<FsMonitor>, AllocError>
    ensures is { IfOk result (IsMonitorAfter changes.now old.now entries.now monitor.now) }
    ensures spellable { IfOk result (StaysSpellableMonitor monitor.now) }
{
    let Some(monitor) = monitor else {
        return Ok(None);
    };
    let mut made = monitor.clone()?;
    if changes.is_empty() {
        return Ok(Some(made));
    }
    let Some(dirty) = dirty_after(alloc, old, entries, monitor, changes)? else {
        return Ok(None);
    };
    made.set_entry_dirty(dirty);
    Ok(Some(made))
}
