//! Edits of an index: many paths are staged at once, or pushed and then sorted.

use crate::clock::{self, Clock};
use crate::tree::AnyName;
use gix_index::State;
use gix_index::change::Change;
use gix_index::decode::entry::Pathless;
use gix_index::entry::{Flags, Mode, Stage, Stat};
use gix_index::hash::ObjectId;
use std::alloc::{AllocError, Global};
use std::io;

/// Returns an entry of a plain file with the id of bytes 1.
fn new_entry() -> Pathless {
    Pathless {
        stat: Stat::default(),
        id: ObjectId::Sha1([1; 20]),
        flags: Flags::from_stage(Stage::Unconflicted),
        mode: Mode::FILE,
    }
}

/// Returns a change for each name that stages it.
fn changes_of<'a>(alloc: Global, names: &[&'a [u8]]) -> Result<Vec<Change<'a>>, AllocError> {
    let mut changes = Vec::with_capacity(alloc, names.len())?;
    for &path in names {
        changes.push(Change::Stage {
            entry: new_entry(),
            path,
        })?;
    }
    Ok(changes)
}

/// Pushes an entry for each name.
fn push(state: &mut State, names: &[&[u8]]) -> Result<(), AllocError> {
    for &path in names {
        let new = new_entry();
        state.dangerously_push_entry(new.stat, new.id, new.flags, new.mode, path)?;
    }
    Ok(())
}

/// Stages all names and returns the nanoseconds.
fn apply(clock: Clock<'_>, state: &mut State, changes: &[Change<'_>]) -> io::Result<u64> {
    let begin = clock::now(clock)?;
    match state.apply(&AnyName, changes) {
        Ok(()) => clock::since(clock, begin),
        Err(_) => Err(io::Error::from(io::ErrorKind::InvalidInput)),
    }
}

/// Pushes all names, sorts the entries, and returns the nanoseconds.
fn push_and_sort(clock: Clock<'_>, state: &mut State, names: &[&[u8]]) -> io::Result<u64> {
    let begin = clock::now(clock)?;
    push(state, names)?;
    state.sort_entries()?;
    clock::since(clock, begin)
}

/// Adds the names to the index by `apply` or by `sort`. Returns the nanoseconds of processor time and the number of
/// entries afterwards. For another `call` the error is [`InvalidInput`](io::ErrorKind::InvalidInput).
pub fn run(
    clock: Clock<'_>,
    alloc: Global,
    call: &str,
    state: &mut State,
    names: &[&[u8]],
) -> io::Result<(u64, usize)> {
    let nanoseconds = match call {
        "apply" => apply(clock, state, &changes_of(alloc, names)?)?,
        "sort" => push_and_sort(clock, state, names)?,
        _ => return Err(io::Error::from(io::ErrorKind::InvalidInput)),
    };
    Ok((nanoseconds, state.entries().len()))
}
