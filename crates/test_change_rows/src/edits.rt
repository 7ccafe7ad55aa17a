//! Rows about edits: entries are sorted, removed and verified.

use gix_index::entry::{Flags, Mode, Stage, Stat};
use gix_index::hash::Kind;
use gix_index::verify::entries::Error;
use gix_index::{BitFlags as _, State};
use std::alloc::{AllocError, Global};
use test_row_kit::show::{Bytes, Fields, Listed, Text, entries};
use test_row_kit::words::{id_of, number_of, text_of};
use test_row_kit::{Fault, Lines, Words};

/// `edits`: appends what each edit returns, and the entries after it.
pub fn edits(out: &mut Lines, kind: Kind, words: &mut Words<'_>) -> Result<(), Fault> {
    let mut state = words.entries(kind)?;
    for _ in 0..u64::MAX {
        let Some(word) = words.optional() else {
            break;
        };
        edit(out, &mut state, word)?;
    }
    Ok(())
}

/// Makes one edit and appends its lines. `word` is the name of the edit, and after `=` its argument.
fn edit(out: &mut Lines, state: &mut State, word: &str) -> Result<(), Fault> {
    let (name, taken) = word.split_once('=').unwrap_or((word, ""));
    match name {
        "verify" => {
            verify(out, word, state);
            return Ok(());
        }
        "storage" => {
            lend_storage(out, word, state);
            return Ok(());
        }
        "sort" => done(out, word, state.sort_entries()),
        "sort-down" => {
            let sorted = state.sort_entries_by(|a, b| b.id.as_bytes().cmp(a.id.as_bytes()));
            done(out, word, sorted);
        }
        "push" => push(out, word, state, taken)?,
        "remove" => remove(out, word, state, taken),
        "at" => remove_at(out, word, state, number_of(taken)?)?,
        "executable" => make_executable(out.alloc(), state, taken)?,
        _ => return Err(Fault::Wrong("the name of an edit")),
    }
    write!(out, "{word}: ");
    entries(out, state);
    Ok(())
}

/// Appends a line if an allocation of the edit failed. The entries are then as before the edit.
fn done(out: &mut Lines, word: &str, answer: Result<(), AllocError>) {
    if answer.is_err() {
        writeln!(out, "{word}: fault: memory");
    }
}

/// Pushes an entry with this path: a plain file with the id of bytes 11.
fn push(out: &mut Lines, word: &str, state: &mut State, path: &str) -> Result<(), Fault> {
    let path = text_of(out.alloc(), path)?;
    let id = id_of(out.alloc(), state.object_hash(), "11")?;
    let flags = Flags::from_stage(Stage::Unconflicted);
    let pushed = state.dangerously_push_entry(Stat::default(), id, flags, Mode::FILE, &path);
    done(out, word, pushed);
    Ok(())
}

/// Takes the path storage out of the state, appends its bytes, and returns it to the state.
fn lend_storage(out: &mut Lines, word: &str, state: &mut State) {
    let storage = state.take_path_backing();
    writeln!(out, "{word}: storage: {}", Bytes(&storage));
    state.return_path_backing(storage);
}

/// Appends the first entry that isn't greater than the entry before it.
fn verify(out: &mut Lines, word: &str, state: &State) {
    match state.verify_entries() {
        Ok(()) => writeln!(out, "{word}: verify: ordered"),
        Err(
            Error::OutOfOrder {
                current_index,
                current_path,
                current_stage,
                previous_path,
                previous_stage,
            },
        ) => {
            let (current, previous) = (current_stage as u32, previous_stage as u32);
            write!(out, "{word}: fault: {}:{current} at ", Text(&current_path));
            writeln!(
                out,
                "{current_index} behind {}:{previous}",
                Text(&previous_path)
            );
        }
        Err(Error::Memory) => writeln!(out, "{word}: fault: memory"),
    }
}

/// Removes the entries at these indices, and appends the indices that the closure is called with. The closure marks
/// each entry with `UPTODATE`.
fn remove(out: &mut Lines, word: &str, state: &mut State, places: &str) {
    let mut seen = Vec::new(out.alloc());
    state.remove_entries(|place, _path, entry| {
        out.note(seen.push(place));
        entry.flags = entry.flags.union(Flags::UPTODATE);
        is_among(places, place)
    });
    writeln!(out, "{word}: seen: {}", Listed(&seen));
}

/// Returns whether `place` is one of the indices in a text that joins them by `,`.
fn is_among(places: &str, place: usize) -> bool {
    for word in places.split(',') {
        if word.parse::<usize>().is_ok_and(|it| it == place) {
            return true;
        }
    }
    false
}

/// Sets the mode of an executable file for the entry with this path and stage, if there is one.
fn make_executable(alloc: Global, state: &mut State, key: &str) -> Result<(), Fault> {
    let Some((path, stage)) = key.split_once(':') else {
        return Err(Fault::Wrong("a path and a stage"));
    };
    let stage = match stage {
        "0" => Stage::Unconflicted,
        "1" => Stage::Base,
        "2" => Stage::Ours,
        "3" => Stage::Theirs,
        _ => return Err(Fault::Wrong("a stage")),
    };
    if let Some(entry) = state.entry_mut_by_path_and_stage(&text_of(alloc, path)?, stage) {
        entry.mode = Mode::FILE_EXECUTABLE;
    }
    Ok(())
}

/// Removes the entry at an index, and appends its fields other than its path.
fn remove_at(out: &mut Lines, word: &str, state: &mut State, place: usize) -> Result<(), Fault> {
    if place >= state.entries().len() {
        return Err(Fault::Wrong("the place of an entry"));
    }
    let entry = state.remove_entry_at_index(place);
    writeln!(out, "{word}: removed: {}", Fields(&entry));
    Ok(())
}
