//! Lookup of the entries at a path or with a prefix.

ghost use Rattle.std.specs.Prelude.{◌≡◌, ◌<◌, ◌≤◌, Option, length, take, map, position, IfSome, false, true};
ghost use Rattle.std.specs.List.{HoldsAt};
ghost use Rattle.std.specs.Ordering.{is_eq};
ghost use Rattle.entry_fields.specs.Flags.{stage_code, stage_number};
ghost use Rattle.entry_lookup.specs.Lookup.{IsKeyAt, record_index};
ghost use Rattle.entry_list.specs.Order.{IsOrderedByPath, IsStrictlyOrdered};
ghost use Rattle.entry_lookup.specs.Range.{FindsRange, HasStageOf, IsPrefixRange, LiesWithin, is_at};
ghost use Rattle.entry_lookup.specs.Range.{place_of_path};
ghost use Rattle.base_search.specs.Halving.{IsPartedAt, IsRising};
ghost use Rattle.entry_lookup.specs.SearchSteps.{asked_cmp};
ghost use Rattle.entry_lookup.specs.Searches.{SearchesPrefix};
ghost use Rattle.entry_lookup.specs.RangeSteps.{IsEnoughUpto, is_wanted, is_wanted_at};

use crate::search::{Asked, Prefix, search, search_path_and_stage};
use base_search::ordered::{Ordered, end_from, part};
use entry_fields::entry::Stage;
use entry_list::Entry;
use entry_list::slice::EntrySlice;
use std::ops::Range;

/// Returns the indices of the elements that are equal to the target, or None if there are none.
fn run_of<R: Ordered>(places: &R) -> Option<Range<usize>>
    ensures { FindsRange is_eq (IsRising (R.answers places.now)) (R.answers places.now) result }
{
    let low = part(places, false).0;
    let high = end_from(places, low);
    if low < high { Some(low..high) } else { None }
}

/// Returns the indices of the entries at the path, counted from 0, or None if there are none.
///
/// If the paths never fall, these are all such indices. Otherwise they are indices into the list, and nothing more is
/// guaranteed.
pub fn entry_range(entries: &EntrySlice<'_>, path: &[u8]) -> Option<Range<usize>>
    ensures { FindsRange (is_at path.now) (IsOrderedByPath entries.now) entries.now result }
{
    run_of(&Asked {
        entries,
        path,
        stage: None,
    })
}

/// Returns the start of the prefix's range, that is the number of paths below it. The second result is how often the
/// prefix was compared with a path. For n entries, in any order, it is at most one more than the number of n's binary
/// digits. It is at least one if there are entries.
///
/// The start is guaranteed if the paths never fall. Otherwise it is at most the number of entries.
pub fn search_prefix(entries: &EntrySlice<'_>, prefix: &[u8]) -> (usize, usize)
    ensures { SearchesPrefix prefix.now entries.now result }
{
    let tail = &[];
    part(
        &Prefix {
            entries,
            prefix,
            tail,
        },
        false,
    )
}

/// Returns the indices of the entries whose path begins with the prefix, counted from 0, or None if there are none. The
/// empty prefix has all indices, for no entries too: `0..0`.
///
/// If the paths never fall, these are all such indices. Otherwise they are indices into the list.
pub fn prefixed_entries_range(entries: &EntrySlice<'_>, prefix: &[u8]) -> Option<Range<usize>>
    ensures in_range { IfSome result (LiesWithin entries.now) }
    ensures exactly { IsOrderedByPath entries.now
        → IsPrefixRange prefix.now entries.now result }
    ensures empty { length prefix.now ≡ 0 → IsPrefixRange prefix.now entries.now result }
{
    if prefix.is_empty() {
        return Some(0..entries.len());
    }
    let tail = &[];
    run_of(&Prefix {
        entries,
        prefix,
        tail,
    })
}

/// Returns the index of the entry at the path and the stage, counted from 0, or None.
///
/// If entries strictly increase by path, then stage, it is the only such index, and None means that there is none.
/// Otherwise an index still has that path and stage, and None means nothing.
pub fn entry_index_by_path_and_stage(
    entries: &EntrySlice<'_>,
    path: &[u8],
    stage: Stage,
) -> Option<usize>
    ensures found { IfSome result (IsKeyAt path.now (stage_code stage) entries.now) }
    ensures answer { IsStrictlyOrdered entries.now
        → result ≡ record_index path.now (stage_code stage) entries.now }
{
    search_path_and_stage(entries, path, stage).0.ok()
}

/// Returns the index of the entry at the path and the stage, of the first `upper_bound` entries, counted from 0, or
/// None.
///
/// If entries strictly increase by path, then stage, it is the only such index, and None means that there is none.
/// Otherwise an index still has that path and stage, and None means nothing.
pub fn entry_index_by_path_and_stage_bounded(
    entries: &EntrySlice<'_>,
    path: &[u8],
    stage: Stage,
    upper_bound: usize,
) -> Option<usize>
    requires bound { upper_bound ≤ length entries.now }
    ensures found { IfSome result (IsKeyAt path.now (stage_code stage)
        (take upper_bound entries.now)) }
    ensures answer { IsStrictlyOrdered (take upper_bound entries.now)
        → result ≡ record_index path.now (stage_code stage) (take upper_bound entries.now) }
{
    entry_index_by_path_and_stage(&entries.first(upper_bound), path, stage)
}

/// Which of the entries at a path is wanted.
#[derive(Clone, Copy)]
pub(crate) enum Wanted {
    /// One for a directory.
    Directory,
    /// One without a conflict, or our side of a merge.
    OurSide,
}

/// Returns whether the entry is wanted.
pub(crate) fn is_wanted(entry: &Entry, wanted: Wanted) -> bool
    ensures { result ≡ is_wanted wanted entry.now.mode.0 (stage_number entry.now.flags.0) }
{
    match wanted {
        Wanted::Directory => entry.mode.is_sparse() || entry.mode.is_submodule(),
        Wanted::OurSide => matches!(entry.stage(), Stage::Unconflicted | Stage::Ours),
    }
}

/// Returns the index of the first wanted entry at the path, if the entries of the path are adjacent from an index on.
/// It reads only entries before `end`. The caller knows that none from `end` on is wanted unless one before it is.
pub(crate) fn first_match(
    entries: &EntrySlice<'_>,
    path: &[u8],
    low: usize,
    end: usize,
    wanted: Wanted,
) -> Option<usize>
    ensures found { IfSome result (λ i. (i < length entries.now)
        × HoldsAt (λ r. is_wanted_at path.now wanted r ≡ true) entries.now i) }
    ensures answer { IsOrderedByPath entries.now
        → IsPartedAt false (map (asked_cmp path.now None) entries.now) low
        → IsEnoughUpto (is_wanted_at path.now wanted) entries.now low end
        → result ≡ position (is_wanted_at path.now wanted) entries.now }
{
    for place in low..end.min(entries.len()) {
        if Entry::cmp_filepaths(entries.path(place), path).is_ne() {
            return None;
        }
        if is_wanted(entries.entry(place), wanted) {
            return Some(place);
        }
    }
    None
}

/// Returns the index of the entry at the path: that at stage 0, or else that at stage 2, our side of a merge, or else
/// None. It reads the first two of the entries at the path. Neither stage can come after these.
///
/// This is guaranteed if entries strictly increase by path, then stage. Otherwise an entry that is returned still has
/// that path and one of both stages.
pub fn place_by_path(entries: &EntrySlice<'_>, path: &[u8]) -> Option<usize>
    ensures found { IfSome result (λ i. (i < length entries.now)
        × HoldsAt (HasStageOf path.now) entries.now i) }
    ensures answer { IsStrictlyOrdered entries.now
        → result ≡ place_of_path path.now entries.now }
{
    match search(entries, path, None).0 {
        Ok(low) => {
            let end = low + (entries.len() - low).min(2);
            first_match(entries, path, low, end, Wanted::OurSide)
        }
        Err(_) => None,
    }
}
