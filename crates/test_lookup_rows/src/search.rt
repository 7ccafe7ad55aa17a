//! One search for a path, the number of paths that it compares, and the order of entries.

use crate::place::most_compared;
use gix_index::State;
use gix_index::entry::Stage;
use test_row_kit::show::{Item, OrNone, sign_of};
use test_row_kit::{Fault, Lines, Words};

/// `search`: appends the index of the path, or of the path and the stage.
pub fn search(out: &mut Lines, state: &State, words: &mut Words<'_>) -> Result<(), Fault> {
    let path = words.text()?;
    match words.stage()? {
        Some(stage) => search_stage(out, state, &path, stage),
        None => {
            let (found, count) = state.search_path(&path);
            place(out, "search_path", found);
            compared(out, "search_path", state, count);
            place(out, "entry_index_by_path", state.entry_index_by_path(&path));
        }
    }
    Ok(())
}

fn search_stage(out: &mut Lines, state: &State, path: &[u8], stage: Stage) {
    let (found, count) = state.search_path_and_stage(path, stage);
    place(out, "search_path_and_stage", found);
    compared(out, "search_path_and_stage", state, count);
    let index = state.entry_index_by_path_and_stage(path, stage);
    out.put("entry_index_by_path_and_stage", OrNone(index));
    let entry = state.entry_by_path_and_stage(path, stage);
    let item = entry.map(|entry| Item { path, entry });
    out.put("entry_by_path_and_stage", OrNone(item));
}

/// Appends the result of a search: the index of the entry, or the index at which the path would be inserted.
fn place(out: &mut Lines, name: &str, found: Result<usize, usize>) {
    match found {
        Ok(place) => writeln!(out, "{name}: at {place}"),
        Err(place) => writeln!(out, "{name}: before {place}"),
    }
}

/// Appends the line of the number of paths that a search compared. The number is in range if it is at most
/// [`most_compared`], and at least one unless there are no entries.
fn compared(out: &mut Lines, name: &str, state: &State, count: usize) {
    let len = state.entries().len();
    let most = most_compared(len);
    if count <= most && (count > 0 || len == 0) {
        writeln!(out, "{name} comparisons: at most {most}");
    } else {
        writeln!(out, "{name} comparisons: {count}, not at most {most}");
    }
}

/// `order`: appends the order of each entry and the next one.
pub fn order(out: &mut Lines, state: &State) {
    let pairs = state.entries().iter().zip(state.entries().iter().skip(1));
    for (place, (entry, next)) in pairs.enumerate() {
        writeln!(out, "cmp {place}: {}", sign_of(entry.cmp(next, state)));
    }
}
