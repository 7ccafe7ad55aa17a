//! Lookups over entries whose paths are not in order: whether their results are in the range of the entries.

use crate::place::put;
use gix_index::State;
use test_row_kit::Lines;

/// Appends the lines of all lookups for each path.
pub fn lookups(out: &mut Lines, state: &State, paths: &[Vec<u8>]) {
    for path in paths {
        lookup(out, state, path);
    }
}

fn lookup(out: &mut Lines, state: &State, path: &[u8]) {
    let len = state.entries().len();
    let is_place = match state.search_path(path).0 {
        Ok(place) => place < len,
        Err(place) => place <= len,
    };
    let is_range = match state.entry_range(path) {
        Some(range) => range.start < range.end && range.end <= len,
        None => true,
    };
    let is_prefix_range = match state.prefixed_entries_range(path) {
        Some(range) => range.start <= range.end && range.end <= len,
        None => true,
    };
    put(out, path, "search_path", among(is_place));
    put(out, path, "entry_range", among(is_range));
    put(out, path, "prefixed_entries_range", among(is_prefix_range));
    put(
        out,
        path,
        "search_prefix",
        among(state.search_prefix(path).0 <= len),
    );
}

/// Returns the value of the line: whether the result is in the range of the entries.
fn among(is_inside: bool) -> &'static str {
    match is_inside {
        true => "among the entries",
        false => "outside the entries",
    }
}
