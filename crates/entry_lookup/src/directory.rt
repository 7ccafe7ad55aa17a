//! Lookup of directories, by the entries at or below them.

ghost use Rattle.std.specs.Prelude.{◌≡◌, ◌<◌, length, position, IfSome, is_some, true};
ghost use Rattle.std.specs.Bool.{OnTrue};
ghost use Rattle.std.specs.List.{HoldsAt, list_any};
ghost use Rattle.entry_list.specs.Order.{IsOrderedByPath};
ghost use Rattle.entry_lookup.specs.Closest.{closest, is_below, stands_in};

use crate::range::{Wanted, first_match};
use crate::search::{Prefix, search};
use base_search::ordered::search_within;
use entry_list::slice::EntrySlice;

/// Returns the index of the first entry below the directory.
fn first_below(entries: &EntrySlice<'_>, directory: &[u8]) -> Option<usize>
    ensures found { IfSome result (λ i. (i < length entries.now)
        × HoldsAt (λ r. is_below directory.now r ≡ true) entries.now i) }
    ensures answer { IsOrderedByPath entries.now
        → result ≡ position (is_below directory.now) entries.now }
{
    let tail = b"/";
    let places = Prefix {
        entries,
        prefix: directory,
        tail,
    };
    search_within(&places, 0, entries.len()).0.ok()
}

/// Returns the index of the entry that is closest to the directory, or None.
///
/// If entries are at the directory's path, it is the first for a directory itself, a sparse one or a submodule.
/// Otherwise it is the first entry below the directory: its path continues after the directory and a slash.
///
/// This is guaranteed if the paths never fall. Otherwise an entry that is returned still is the directory or is below
/// it.
pub fn closest_place(entries: &EntrySlice<'_>, directory: &[u8]) -> Option<usize>
    ensures found { IfSome result (λ i. (i < length entries.now)
        × HoldsAt (λ r. stands_in directory.now r ≡ true) entries.now i) }
    ensures answer { IsOrderedByPath entries.now
        → result ≡ closest directory.now entries.now }
{
    match search(entries, directory, None).0 {
        Ok(low) => first_match(entries, directory, low, entries.len(), Wanted::Directory),
        Err(_) => first_below(entries, directory),
    }
}

/// Returns whether the path is a directory: that of an entry, or one with entries below it.
///
/// This is guaranteed if the paths never fall. Otherwise true still means that there is such an entry.
pub fn path_is_directory(entries: &EntrySlice<'_>, path: &[u8]) -> bool
    ensures found { OnTrue result (list_any (stands_in path.now) entries.now ≡ true) }
    ensures answer { IsOrderedByPath entries.now
        → result ≡ is_some (closest path.now entries.now) }
{
    closest_place(entries, path).is_some()
}
