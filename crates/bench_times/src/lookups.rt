//! Lookups of names in an index.

use crate::clock::{self, Clock};
use gix_index::{AccelerateLookup, State, count_present};
use std::alloc::Global;
use std::io;

/// The calls that can be made. The last two build a table and look up nothing.
pub const CALLS: [&str; 12] = [
    "path",
    "entry",
    "range",
    "prefix",
    "directory",
    "table",
    "kept-path",
    "folded-path",
    "kept-directory",
    "folded-directory",
    "make-table",
    "make-folded",
];

/// The result of a call.
#[derive(Clone, Copy)]
pub struct Found {
    /// The nanoseconds of processor time, or 0 if no time is measured.
    pub nanoseconds: u64,
    /// The number of names that were found, or of directories in the table that was built.
    pub count: usize,
    /// The number of directories in the table if the case of ASCII letters is ignored. `None` if the table is
    /// case-sensitive.
    pub folded: Option<usize>,
}

impl Found {
    fn new(nanoseconds: u64, count: usize) -> Found {
        Found {
            nanoseconds,
            count,
            folded: None,
        }
    }
}

/// Returns how many of the names have an entry, are a prefix of an entry's path, or are a directory.
fn count_in_state(state: &State, call: &str, names: &[&[u8]]) -> usize {
    match call {
        "path" => count_present(state, names),
        "entry" => count_entries(state, names),
        "range" => count_ranges(state, names),
        "prefix" => count_prefixes(state, names),
        _ => count_directories(state, names),
    }
}

fn count_entries(state: &State, names: &[&[u8]]) -> usize {
    let mut count = 0usize;
    for name in names {
        if state.entry_by_path(name).is_some() {
            count = count.wrapping_add(1);
        }
    }
    count
}

fn count_ranges(state: &State, names: &[&[u8]]) -> usize {
    let mut count = 0usize;
    for name in names {
        if state.entry_range(name).is_some() {
            count = count.wrapping_add(1);
        }
    }
    count
}

fn count_prefixes(state: &State, names: &[&[u8]]) -> usize {
    let mut count = 0usize;
    for name in names {
        if state.prefixed_entries_range(name).is_some() {
            count = count.wrapping_add(1);
        }
    }
    count
}

fn count_directories(state: &State, names: &[&[u8]]) -> usize {
    let mut count = 0usize;
    for name in names {
        if state.path_is_directory(name) {
            count = count.wrapping_add(1);
        }
    }
    count
}

/// Returns how many of the names are paths of entries, looked up in the table.
fn count_folded_paths(lookup: &AccelerateLookup<'_>, ignore_case: bool, names: &[&[u8]]) -> usize {
    let mut count = 0usize;
    for name in names {
        if lookup.search_path_icase(name, ignore_case).0.is_some() {
            count = count.wrapping_add(1);
        }
    }
    count
}

/// Returns how many of the names are directories, looked up in the table.
fn count_folded_directories(
    lookup: &AccelerateLookup<'_>,
    ignore_case: bool,
    names: &[&[u8]],
) -> usize {
    let mut count = 0usize;
    for name in names {
        if lookup.path_is_directory_icase(name, ignore_case) {
            count = count.wrapping_add(1);
        }
    }
    count
}

/// Builds the case-insensitive table. Then looks up the names in it, unless the call only builds the table.
fn run_folded(
    clock: Clock<'_>,
    alloc: Global,
    state: &State,
    call: &str,
    names: &[&[u8]],
) -> io::Result<Found> {
    let mut begin = clock::now(clock)?;
    let lookup = state.prepare_icase_backing(alloc)?;
    if call == "make-folded" {
        let nanoseconds = clock::since(clock, begin)?;
        return Ok(Found {
            nanoseconds,
            count: lookup.directories(false),
            folded: Some(lookup.directories(true)),
        });
    }
    begin = clock::now(clock)?;
    let count = match call {
        "kept-path" => count_folded_paths(&lookup, false, names),
        "folded-path" => count_folded_paths(&lookup, true, names),
        "kept-directory" => count_folded_directories(&lookup, false, names),
        _ => count_folded_directories(&lookup, true, names),
    };
    Ok(Found::new(clock::since(clock, begin)?, count))
}

/// Builds the table of directories. Then looks up the names in it, unless the call only builds the table.
fn run_table(
    clock: Clock<'_>,
    alloc: Global,
    state: &State,
    call: &str,
    names: &[&[u8]],
) -> io::Result<Found> {
    if !state.is_ordered_by_path() {
        return Err(io::Error::from(io::ErrorKind::InvalidData));
    }
    let mut begin = clock::now(clock)?;
    let table = state.prepare_directory_table(alloc)?;
    if call == "make-table" {
        return Ok(Found::new(clock::since(clock, begin)?, table.directories()));
    }
    begin = clock::now(clock)?;
    let count = count_present(&table, names);
    Ok(Found::new(clock::since(clock, begin)?, count))
}

/// Makes one of the [`CALLS`], or none for `load`.
///
/// # Errors
///
/// - [`InvalidInput`](io::ErrorKind::InvalidInput) for another `call`.
/// - [`InvalidData`](io::ErrorKind::InvalidData) if the call needs a table of directories and the entries aren't in
///   order.
pub fn run(
    clock: Clock<'_>,
    alloc: Global,
    state: &State,
    call: &str,
    names: &[&[u8]],
) -> io::Result<Found> {
    match call {
        "load" => Ok(Found::new(0, 0)),
        "path" | "entry" | "range" | "prefix" | "directory" => {
            let begin = clock::now(clock)?;
            let count = count_in_state(state, call, names);
            Ok(Found::new(clock::since(clock, begin)?, count))
        }
        "table" | "make-table" => run_table(clock, alloc, state, call, names),
        "kept-path" | "folded-path" | "kept-directory" | "folded-directory" | "make-folded" => {
            run_folded(clock, alloc, state, call, names)
        }
        _ => Err(io::Error::from(io::ErrorKind::InvalidInput)),
    }
}
