//! Lookups over entries whose paths are in order.

ghost use Rattle.gix_index.specs.Order.{IsOrderedByPath};
ghost use Rattle.gix_index.specs.State.{records};

use crate::icase::is_strictly_ordered;
use crate::place::{Places, compared, most_compared, place_of, put};
use gix_index::entry::Stage;
use gix_index::{DirectoryTable, PathSearch, State, count_present};
use std::alloc::AllocError;
use std::ops::Range;
use test_row_kit::Lines;
use test_row_kit::show::{OrNone, Text, yes};

/// All stages.
const STAGES: [Stage; 4] = [Stage::Unconflicted, Stage::Base, Stage::Ours, Stage::Theirs];

/// Appends what the lookups return for all paths together and for each path.
pub fn lookups(out: &mut Lines, state: &State, paths: &[Vec<u8>]) -> Result<(), AllocError>
    requires { IsOrderedByPath (records state.now) }
{
    let table = state.prepare_directory_table(out.alloc())?;
    let all: Vec<&[u8]> = paths
        .iter()
        .map(|path| path.as_slice())
        .collect(out.alloc())?;
    out.put("directory_table directories", table.directories());
    out.put("count_present", count_present(state, &all));
    out.put("directory_table count_present", count_present(&table, &all));
    let is_strict = is_strictly_ordered(state);
    for path in paths {
        searches(out, state, &table, path);
        ranges(out, state, &table, path);
        if is_strict {
            stages(out, state, &table, path);
        }
    }
    Ok(())
}

/// Appends what the searches for the path find.
fn searches(out: &mut Lines, state: &State, table: &DirectoryTable<'_>, path: &[u8]) {
    let most = most_compared(state.entries().len());
    let found = search(out, state, path, "search_path", most);
    tell_place(out, state, path, "search_path", found);
    let most = most_by_table(table, state.entries().len(), path);
    let found = search(out, table, path, "directory_table search_path", most);
    tell_place(out, state, path, "directory_table search_path", found);
}

fn search<S: PathSearch>(
    out: &mut Lines,
    searcher: &S,
    path: &[u8],
    name: &str,
    most: usize,
) -> Result<usize, usize> {
    let (found, count) = searcher.search_path(path);
    compared(out, path, name, count, most);
    found
}

/// Appends the result of a search:
///
/// - the index of the entry, if it is the only one with the path;
/// - `found`, if several entries have the path;
/// - the index at which the path would be inserted, if none has it.
fn tell_place(
    out: &mut Lines,
    state: &State,
    path: &[u8],
    name: &str,
    found: Result<usize, usize>,
) {
    let of_path = match state.entry_range(path) {
        Some(range) => range.len(),
        None => 0,
    };
    match found {
        Ok(place) if of_path == 1 => writeln!(out, "{}: {name}: at {place}", Text(path)),
        Ok(_) => put(out, path, name, "found"),
        Err(place) => writeln!(out, "{}: {name}: before {place}", Text(path)),
    }
}

/// Returns the largest number of directory names and paths that a search by directory table may compare.
fn most_by_table(table: &DirectoryTable<'_>, len: usize, path: &[u8]) -> usize {
    let Some(slash) = path.iter().rposition(|byte| *byte == b'/') else {
        return most_compared(len);
    };
    let inside = match table.range(&path[..slash]) {
        Some(range) => range.len(),
        None => len,
    };
    most_compared(table.directories()).saturating_add(most_compared(inside))
}

/// Appends the ranges and directories that begin with the path.
fn ranges(out: &mut Lines, state: &State, table: &DirectoryTable<'_>, path: &[u8]) {
    range(out, path, "directory_table range", table.range(path));
    range(out, path, "entry_range", state.entry_range(path));
    range(
        out,
        path,
        "prefixed_entries_range",
        state.prefixed_entries_range(path),
    );
    let (start, count) = state.search_prefix(path);
    let most = most_compared(state.entries().len());
    compared(out, path, "search_prefix", count, most);
    put(out, path, "search_prefix", start);
    let closest = state.entry_closest_to_directory_or_directory(path);
    let place = OrNone(place_of(state, closest));
    put(out, path, "entry_closest_to_directory_or_directory", place);
    let is_directory = yes(state.path_is_directory(path));
    put(out, path, "path_is_directory", is_directory);
    let count = state.prefixed_entries(path).map(|entries| entries.len());
    put(out, path, "prefixed_entries", OrNone(count));
}

fn range(out: &mut Lines, path: &[u8], name: &str, range: Option<Range<usize>>) {
    put(out, path, name, OrNone(range.map(Places)));
}

/// Appends what the searches for the path and each stage find, and the entry at the path. The entries are in strict
/// order.
fn stages(out: &mut Lines, state: &State, table: &DirectoryTable<'_>, path: &[u8]) {
    let most = most_compared(state.entries().len());
    search_stages(out, state, path, "search_path_and_stage", most);
    let most = most_by_table(table, state.entries().len(), path);
    search_stages(
        out,
        table,
        path,
        "directory_table search_path_and_stage",
        most,
    );
    put(
        out,
        path,
        "entry_by_path",
        OrNone(place_of(state, state.entry_by_path(path))),
    );
    bounded(out, state, path);
}

/// Appends, for the path and each stage, the index of an entry in the first half of the entries.
fn bounded(out: &mut Lines, state: &State, path: &[u8]) {
    let half = state.entries().len() / 2;
    write!(
        out,
        "{}: entry_index_by_path_and_stage_bounded:",
        Text(path)
    );
    for (place, stage) in STAGES.iter().enumerate() {
        if place > 0 {
            write!(out, ",");
        }
        let found = state.entry_index_by_path_and_stage_bounded(path, *stage, half);
        write!(out, " {}", OrNone(found));
    }
    writeln!(out);
}

fn search_stages<S: PathSearch>(
    out: &mut Lines,
    searcher: &S,
    path: &[u8],
    name: &str,
    most: usize,
) {
    let mut greatest = 0;
    write!(out, "{}: {name}:", Text(path));
    for (place, stage) in STAGES.iter().enumerate() {
        let (found, count) = searcher.search_path_and_stage(path, *stage);
        greatest = count.max(greatest);
        if place > 0 {
            write!(out, ",");
        }
        match found {
            Ok(place) => write!(out, " at {place}"),
            Err(place) => write!(out, " before {place}"),
        }
    }
    writeln!(out);
    compared(out, path, name, greatest, most);
}
