//! Calls on a complete index.

use crate::clock::{self, Clock};
use gix_index::entry::FileTime;
use gix_index::hash::Kind;
use gix_index::{File, State, decode};
use std::alloc::Global;
use std::io;
use std::path::PathBuf;

/// Reads the index of SHA-1 at a path, and the shared index if it is split. Returns the nanoseconds and the number of
/// entries. `skip_hash` omits the check of the digest. If the file can't be read, the error is
/// [`InvalidData`](io::ErrorKind::InvalidData).
pub fn open(
    rt: &HostRuntime,
    alloc: Global,
    path: &str,
    skip_hash: bool,
) -> io::Result<(u64, usize)> {
    let path = PathBuf::from_str(alloc, path)?;
    let (time, options) = (FileTime::EPOCH, decode::Options::default());
    let begin = clock::now(Some(rt))?;
    let opened = File::at(rt, alloc, path, Kind::Sha1, skip_hash, time, options);
    let nanoseconds = clock::since(Some(rt), begin)?;
    match opened {
        Ok(file) => Ok((nanoseconds, file.entries().len())),
        Err(_) => Err(io::Error::from(io::ErrorKind::InvalidData)),
    }
}

fn sort(clock: Clock<'_>, state: &mut State) -> io::Result<u64> {
    let begin = clock::now(clock)?;
    state.sort_entries()?;
    clock::since(clock, begin)
}

/// Removes every second entry.
fn remove(clock: Clock<'_>, state: &mut State) -> io::Result<u64> {
    let begin = clock::now(clock)?;
    state.remove_entries(|place, _, _| place % 2 == 1);
    clock::since(clock, begin)
}

/// Checks whether the entries are in order, and ignores the result.
fn verify(clock: Clock<'_>, state: &State) -> io::Result<u64> {
    let begin = clock::now(clock)?;
    let _ = state.verify_entries();
    clock::since(clock, begin)
}

fn copy(clock: Clock<'_>, state: &State) -> io::Result<u64> {
    let begin = clock::now(clock)?;
    let _copy = state.clone()?;
    clock::since(clock, begin)
}

/// Makes a call on all entries. Returns the nanoseconds of processor time and the number of entries afterwards. For
/// another `call` the error is [`InvalidInput`](io::ErrorKind::InvalidInput).
pub fn run(clock: Clock<'_>, call: &str, state: &mut State) -> io::Result<(u64, usize)> {
    let nanoseconds = match call {
        "sort" => sort(clock, state)?,
        "remove" => remove(clock, state)?,
        "verify" => verify(clock, state)?,
        "copy" => copy(clock, state)?,
        _ => return Err(io::Error::from(io::ErrorKind::InvalidInput)),
    };
    Ok((nanoseconds, state.entries().len()))
}
