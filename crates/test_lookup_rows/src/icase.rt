//! Lookups over entries in any order: the first entry at a path and at a directory, case-sensitive and
//! case-insensitive.

ghost use Rattle.std.specs.Prelude.{◌≡◌};
ghost use Rattle.gix_index.specs.State.{records};

use crate::place::{Both, compared, most_compared, place_of, put};
use gix_index::entry::Stage;
use gix_index::{AccelerateLookup, Entry, State};
use std::alloc::AllocError;
use test_row_kit::Lines;
use test_row_kit::show::{OrNone, Text, yes};

/// Appends what the lookups return for the entries and for each path.
pub fn lookups(out: &mut Lines, state: &State, paths: &[Vec<u8>]) -> Result<(), AllocError> {
    let lookup = state.prepare_icase_backing(out.alloc())?;
    out.put("directories", lookup.directories(false));
    out.put("directories icase", lookup.directories(true));
    out.put("is_ordered_by_path", yes(state.is_ordered_by_path()));
    out.put("is_strictly_ordered", yes(is_strictly_ordered(state)));
    unconflicted(out, state);
    for path in paths {
        search(out, state, &lookup, path);
    }
    Ok(())
}

/// Appends the paths of the entries whose stage is `Unconflicted`.
fn unconflicted(out: &mut Lines, state: &State) {
    write!(out, "entries_with_paths_by_filter_map: [");
    let mut is_first = true;
    for (path, _) in state.entries_with_paths_by_filter_map(|_, entry| {
        if entry.stage() == Stage::Unconflicted {
            Some(())
        } else {
            None
        }
    }) {
        if !is_first {
            write!(out, ";");
        }
        is_first = false;
        write!(out, "{}", Text(path));
    }
    writeln!(out, "]");
}

/// Returns whether the entries strictly increase by path and then stage.
pub fn is_strictly_ordered(state: &State) -> bool {
    for (entry, next) in state.entries().iter().zip(state.entries().iter().skip(1)) {
        if entry.cmp(next, state).is_ge() {
            return false;
        }
    }
    true
}

/// Appends what the searches for an entry and for a directory find.
fn search(out: &mut Lines, state: &State, lookup: &AccelerateLookup<'_>, path: &[u8])
    requires { lookup.now ≡ records state.now }
{
    let (kept, count) = state.search_path_icase(path, false, lookup);
    let (ignored, other) = state.search_path_icase(path, true, lookup);
    let most = most_compared(state.entries().len());
    compared(out, path, "search_path_icase", count.max(other), most);
    put(
        out,
        path,
        "search_path_icase",
        Both(OrNone(kept), OrNone(ignored)),
    );
    let kept = state.entry_by_path_icase(path, false, lookup);
    let ignored = state.entry_by_path_icase(path, true, lookup);
    entries(out, state, path, "entry_by_path_icase", kept, ignored);
    let (kept, count) = state.search_directory_icase(path, false, lookup);
    let (ignored, other) = state.search_directory_icase(path, true, lookup);
    let name = "search_directory_icase";
    let most = most_compared(lookup.directories(false));
    compared(out, path, name, count, most);
    let most = most_compared(lookup.directories(true));
    compared(out, path, name, other, most);
    put(out, path, name, Both(OrNone(kept), OrNone(ignored)));
    let kept = state.entry_closest_to_directory_or_directory_icase(path, false, lookup);
    let ignored = state.entry_closest_to_directory_or_directory_icase(path, true, lookup);
    let name = "entry_closest_to_directory_or_directory_icase";
    entries(out, state, path, name, kept, ignored);
    let kept = yes(state.path_is_directory_icase(path, false, lookup));
    let ignored = yes(state.path_is_directory_icase(path, true, lookup));
    put(out, path, "path_is_directory_icase", Both(kept, ignored));
}

/// Appends the indices of two entries.
fn entries(
    out: &mut Lines,
    state: &State,
    path: &[u8],
    name: &str,
    kept: Option<&Entry>,
    ignored: Option<&Entry>,
) {
    let (kept, ignored) = (place_of(state, kept), place_of(state, ignored));
    put(out, path, name, Both(OrNone(kept), OrNone(ignored)));
}
