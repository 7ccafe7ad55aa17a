//! Complete directories of a sparse index, and the paths in them (gitformat-index, "Sparse Directory Entries").

ghost use Rattle.std.specs.Prelude.{◌≡◌, IfSome};
ghost use Rattle.entry_list.specs.Order.{IsStrictlyOrdered};
ghost use Rattle.entry_list.specs.Record.{has_directory};
ghost use Rattle.entry_lookup.specs.Range.{LiesWithin, part_of};
ghost use Rattle.entry_edit.specs.Wholes.{first_in_whole, lies_in_whole};

use crate::change::Change;
use crate::near_end::path_range;
use entry_list::slice::EntrySlice;
use std::ops::Range;

/// Returns whether an entry at these indices is for a complete directory.
fn has_whole(entries: &EntrySlice<'_>, places: Option<Range<usize>>) -> bool
    requires { IfSome places (LiesWithin entries.now) }
    ensures { result ≡ has_directory (part_of entries.now places) }
{
    let Some(places) = places else {
        return false;
    };
    for place in places.start..places.end {
        if entries.entry(place).mode.is_sparse() {
            return true;
        }
    }
    false
}

/// Returns whether the path is in a complete directory: whether one of its directories, with the slash at the end, is
/// the path of an entry for one.
///
/// This is guaranteed if the entries strictly increase. It makes a search for each directory of the path.
pub fn lies_in_whole(entries: &EntrySlice<'_>, path: &[u8]) -> bool
    ensures { IsStrictlyOrdered entries.now → result ≡ lies_in_whole path.now entries.now }
{
    for at in 1..path.len() {
        if path[at - 1] == b'/' && has_whole(entries, path_range(entries, &path[..at])) {
            return true;
        }
    }
    false
}

/// Returns the index of the first change whose path is in a complete directory, counted from 0, or None.
///
/// This is guaranteed if the entries strictly increase. It reads each entry once. If one is for a complete directory,
/// it makes a search for each directory of each path.
pub fn first_in_whole(entries: &EntrySlice<'_>, changes: &[Change<'_>]) -> Option<usize>
    ensures { IsStrictlyOrdered entries.now → result ≡ first_in_whole changes.now entries.now }
{
    if !has_whole(entries, Some(0..entries.len())) {
        return None;
    }
    for (at, change) in changes.iter().enumerate() {
        if lies_in_whole(entries, change.path()) {
            return Some(at);
        }
    }
    None
}
