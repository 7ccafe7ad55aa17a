//! Searches that begin near the end of a list, which has most of the entries that a change concerns.

ghost use Rattle.std.specs.Prelude.{◌≡◌, ◌≤◌, IfErr, IfOk, IfSome, true};
ghost use Rattle.std.specs.Prelude.{length, ok_or};
ghost use Rattle.std.specs.List.{AllWithin};
ghost use Rattle.std.specs.Ordering.{is_eq, is_lt};
ghost use Rattle.entry_list.specs.Order.{IsOrderedByPath, IsStrictlyOrdered, path_cmp};
ghost use Rattle.entry_lookup.specs.Closest.{is_below};
ghost use Rattle.entry_lookup.specs.Lookup.{IsKeyAt, insertion_of, record_index};
ghost use Rattle.entry_lookup.specs.Range.{IsPart, IsRange, is_at};
ghost use Rattle.entry_fields.specs.Flags.{stage_code};
ghost use Rattle.base_search.specs.Halving.{IsRising};
ghost use Rattle.entry_edit.specs.EditSteps.{AreBeyond};
ghost use Rattle.entry_edit.specs.NearEnd.{ClosesIn, IsPartitionPoint};

use base_search::ordered::{Ordered, end_from, part_within};
use entry_fields::entry::Stage;
use entry_list::slice::EntrySlice;
use entry_lookup::search::{Asked, Prefix};
use std::ops::Range;

/// The number of entries that a search passes from the end before it halves the rest.
const NEAR: usize = 64;

/// Returns two indices, between which is the first element that isn't less than the target. The search goes back from
/// the end by one, then by two, then by four, as long as few are passed.
fn gallop_back<R: Ordered>(places: &R) -> (usize, usize)
    ensures { ClosesIn (R.answers places.now) result }
{
    let len = places.len();
    let mut high = len;
    while high > 0 && len - high < NEAR {
        let step = (len - high).min(high - 1);
        let first = high - 1 - step;
        if places.compare(first).is_lt() {
            return (first + 1, high);
        }
        high = first;
    }
    (0, high)
}

/// Returns the first index whose element isn't less than the target. It makes few comparisons if that is near the end.
pub fn first_near_end<R: Ordered>(places: &R) -> usize
    ensures { IsPartitionPoint (R.answers places.now) result }
{
    let (low, high) = gallop_back(places);
    part_within(places, false, low, high).0
}

/// Returns the indices of the elements that are equal to the target, or None if there are none.
fn run_near_end<R: Ordered>(places: &R) -> Option<Range<usize>>
    ensures in_range { IfSome result (IsPart (R.answers places.now)) }
    ensures exactly { IsRising (R.answers places.now)
        → IsRange is_eq (R.answers places.now) result }
{
    let low = first_near_end(places);
    let high = end_from(places, low);
    if low < high { Some(low..high) } else { None }
}

/// Returns the indices of the entries at the path, counted from 0, or None if there are none. It makes few comparisons
/// if they are near the end.
///
/// If the paths never fall, these are all such indices. Otherwise they are indices into the list, and nothing more is
/// guaranteed.
pub fn path_range(entries: &EntrySlice<'_>, path: &[u8]) -> Option<Range<usize>>
    ensures in_range { IfSome result (IsPart entries.now) }
    ensures exactly { IsOrderedByPath entries.now
        → IsRange (is_at path.now) entries.now result }
{
    let stage = None;
    run_near_end(&Asked {
        entries,
        path,
        stage,
    })
}

/// Returns the indices of the entries below the directory `folder`, counted from 0, or None if there are none. It makes
/// few comparisons if they are near the end.
///
/// If the paths never fall, these are all such indices. Otherwise they are indices into the list, and nothing more is
/// guaranteed.
pub(crate) fn folder_range(entries: &EntrySlice<'_>, folder: &[u8]) -> Option<Range<usize>>
    ensures in_range { IfSome result (IsPart entries.now) }
    ensures exactly { IsOrderedByPath entries.now
        → IsRange (is_below folder.now) entries.now result }
{
    run_near_end(&Prefix {
        entries,
        prefix: folder,
        tail: b"/",
    })
}

/// Returns the index of the first entry whose path isn't before this one, if the paths never fall. Otherwise it is at
/// most the number of entries.
pub(crate) fn path_start(entries: &EntrySlice<'_>, path: &[u8]) -> usize
    ensures in_range { result ≤ length entries.now }
    ensures before { IsOrderedByPath entries.now
        → AllWithin (λ r. is_lt (path_cmp r.path path.now) ≡ true) entries.now 0 result }
{
    first_near_end(&Asked {
        entries,
        path,
        stage: None,
    })
}

/// Returns the index after all entries that come before the path or begin with it. It makes few comparisons if that is
/// near the end.
pub(crate) fn prefix_end(entries: &EntrySlice<'_>, path: &[u8]) -> usize
    ensures in_range { result ≤ length entries.now }
    ensures beyond { AreBeyond path.now entries.now result }
{
    let tail = &[];
    let places = Prefix {
        entries,
        prefix: path,
        tail,
    };
    end_from(&places, first_near_end(&places))
}

/// Returns the index of the entry at the path and the stage or, as an error, the index at which it would be inserted.
/// It makes few comparisons if that is near the end.
///
/// This is guaranteed if the entries strictly increase. Otherwise an index still has that path and stage, and an error
/// is only at most the number of entries.
pub(crate) fn key_place(entries: &EntrySlice<'_>, path: &[u8], stage: Stage) -> Result<usize, usize>
    ensures found { IfOk result (IsKeyAt path.now (stage_code stage) entries.now) }
    ensures in_range { IfErr result (λ i. i ≤ length entries.now) }
    ensures answer { IsStrictlyOrdered entries.now
        → result ≡ ok_or (record_index path.now (stage_code stage) entries.now)
        (insertion_of path.now (stage_code stage) entries.now) }
{
    let places = Asked {
        entries,
        path,
        stage: Some(stage),
    };
    let low = first_near_end(&places);
    if low == entries.len() {
        return Err(low);
    }
    if places.compare(low).is_eq() {
        return Ok(low);
    }
    Err(low)
}
