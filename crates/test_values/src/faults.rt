//! Tests of locking, writing and reading in a directory in memory. Each step fails in turn.

use file_place::{Fault, Kept, Shelf, Steps};
use gix_index::entry::{FileTime, Flags, Mode, Stat};
use gix_index::file::lock::{Durable, IfMissing};
use gix_index::file::{ReadOptions, init, lock, write};
use gix_index::hash::{Kind, ObjectId};
use gix_index::write::Options;
use gix_index::{BitFlags as _, File, State, decode};
use std::alloc::{AllocError, Global};
use std::cell::Cell;
use std::path::{Path, PathBuf};
use std::test::Fail;

/// The flags of the entries before a change.
const OLD: Flags = Flags::INTENT_TO_ADD;

/// The flags of the entries after the change.
const NEW: Flags = Flags::ASSUME_VALID;

/// A split index without entries. Its link has a shared index whose checksum is twenty bytes 1. No entry of that index
/// is deleted or replaced.
const SPLIT: &[u8] = b"DIRC\0\0\0\x02\0\0\0\0link\0\0\0\x3c\
    \x01\x01\x01\x01\x01\x01\x01\x01\x01\x01\x01\x01\x01\x01\x01\x01\x01\x01\x01\x01\
    \0\0\0\0\0\0\0\x01\0\0\0\0\0\0\0\0\0\0\0\0\
    \0\0\0\0\0\0\0\x01\0\0\0\0\0\0\0\0\0\0\0\0\
    \0\0\0\0\0\0\0\0\0\0\0\0\0\0\0\0\0\0\0\0";

/// The file name of the shared index of [`SPLIT`].
const SHARED: &str = "sharedindex.0101010101010101010101010101010101010101";

/// The calls that are tested.
#[derive(Clone, Copy)]
enum Call {
    /// The index is locked, changed and committed.
    Commit,
    /// The index is locked, changed and released.
    Release,
    /// Another index is written to the file.
    Write,
}

/// The result that a call reports.
#[derive(Clone, Copy, Debug, PartialEq, Eq)]
enum Told {
    /// The index was replaced.
    Replaced,
    /// The index wasn't replaced, for a reason other than those below.
    Kept,
    /// The index wasn't replaced, because its lock can't be created.
    NoLock,
    /// The index wasn't replaced, because its lock can't be written.
    NoBytes,
    /// The index wasn't replaced, because its lock can't be renamed to it.
    NoPlace,
}

/// How often each result occurred, over all tries of a call with an error.
#[derive(Clone, Copy, Debug, Default, PartialEq, Eq)]
struct Tally {
    /// How often the index wasn't replaced.
    kept: u32,
    /// How often the result was that the lock can't be created.
    unmade: u32,
    /// How often the result was that the lock can't be written.
    unwritten: u32,
    /// How often the result was that the lock can't be renamed.
    unmoved: u32,
    /// How often a lock was left.
    locks: u32,
    /// How often the index was wrong: it wasn't replaced and isn't as before, or it was replaced and isn't the new one.
    torn: u32,
}

impl Tally {
    /// Counts the result of one try.
    fn count(&mut self, told: Told, is_locked: bool, is_torn: bool) {
        let place = match told {
            Told::NoLock => &mut self.unmade,
            Told::NoBytes => &mut self.unwritten,
            _ => &mut self.unmoved,
        };
        if !matches!(told, Told::Replaced | Told::Kept) {
            *place = place.saturating_add(1);
        }
        self.kept = self.kept.saturating_add(u32::from(told != Told::Replaced));
        self.locks = self.locks.saturating_add(u32::from(is_locked));
        self.torn = self.torn.saturating_add(u32::from(is_torn));
    }
}

/// Returns the options by which the tests read an index.
fn reading() -> ReadOptions {
    ReadOptions {
        object_hash: Kind::Sha1,
        skip_hash: false,
        timestamp: at(1),
        options: decode::Options::default(),
    }
}

/// Returns the time with these seconds.
fn at(seconds: i64) -> FileTime {
    FileTime::new(seconds, 0).unwrap_or(FileTime::EPOCH)
}

/// Returns an index with two entries for the file `index`.
fn file_of(alloc: Global, flags: Flags) -> Result<File, AllocError> {
    let mut state = State::new(alloc, Kind::Sha1, FileTime::EPOCH);
    let id = ObjectId::Sha1([1; 20]);
    state.dangerously_push_entry(Stat::default(), id, flags, Mode::FILE, b"a")?;
    state.dangerously_push_entry(Stat::default(), id, flags, Mode::FILE, b"b")?;
    Ok(File::from_state(state, PathBuf::from_str(alloc, "index")?))
}

/// Writes an index with these flags to its file and returns the result.
fn write_told(shelf: &mut Shelf<'_>, alloc: Global, flags: Flags, options: Options) -> Told {
    let Ok(mut file) = file_of(alloc, flags) else {
        return Told::Kept;
    };
    match file.write_in(shelf, alloc, options) {
        Ok(()) => Told::Replaced,
        Err(write::Error::AcquireLock(_)) => Told::NoLock,
        Err(write::Error::Io(_)) => Told::NoBytes,
        Err(write::Error::CommitLock(_)) => Told::NoPlace,
        Err(_) => Told::Kept,
    }
}

/// Locks and changes the index, then commits it if `is_wanted` and releases it otherwise. Returns the result.
fn commit_told(shelf: &mut Shelf<'_>, alloc: Global, is_wanted: bool) -> Told {
    let Ok(path) = PathBuf::from_str(alloc, "index") else {
        return Told::Kept;
    };
    let Ok(mut locked) = File::lock(shelf, alloc, path, reading(), IfMissing::Fail) else {
        return Told::Kept;
    };
    locked.file.set_timestamp(at(3));
    for entry in locked.file.entries_mut() {
        entry.flags = NEW;
    }
    if !is_wanted {
        locked.release(shelf);
        return Told::Kept;
    }
    match locked.commit(shelf, alloc, Options::default(), Durable::Yes) {
        Ok(_) => Told::Replaced,
        Err(_) => Told::Kept,
    }
}

/// Makes a call and returns its result.
fn call_told(call: Call, shelf: &mut Shelf<'_>, alloc: Global) -> Told {
    match call {
        Call::Commit => commit_told(shelf, alloc, true),
        Call::Release => commit_told(shelf, alloc, false),
        Call::Write => write_told(shelf, alloc, NEW, Options::default()),
    }
}

/// Returns a shelf whose file `index` has these bytes and the time 1. Files that are written to it have the time 2.
fn shelf_with<'a>(alloc: Global, steps: Steps<'a>, bytes: &[u8]) -> Result<Shelf<'a>, AllocError> {
    let mut shelf = Shelf::new(alloc, at(2), steps);
    let bytes = bytes.to_vec(alloc)?;
    shelf.keep(Path::new("index"), kept(bytes))?;
    Ok(shelf)
}

/// Returns a file with these bytes and the time 1 that isn't known to be durable.
fn kept(bytes: Vec<u8>) -> Kept {
    Kept {
        bytes,
        time: at(1),
        is_durable: false,
    }
}

/// Returns whether the index on a shelf has these bytes and this time.
fn is_as(shelf: &Shelf<'_>, bytes: &[u8], time: FileTime) -> bool {
    match shelf.file(Path::new("index")) {
        Some(kept) => kept.bytes.as_slice() == bytes && kept.time == time,
        None => false,
    }
}

/// Makes the call with an error at each step, or from each step on if `lasts`, until the call has fewer steps.
fn tried(
    alloc: Global,
    call: Call,
    lasts: bool,
    old: &[u8],
    new: &[u8],
) -> Result<Tally, AllocError> {
    let mut tally = Tally::default();
    let changed = if matches!(call, Call::Write) { 2 } else { 3 };
    for step in 1..100 {
        let taken = Cell::new(0);
        let steps = Steps {
            taken: &taken,
            fault: if lasts {
                Fault::Since(step)
            } else {
                Fault::At(step)
            },
        };
        let mut shelf = shelf_with(alloc, steps, old)?;
        let told = call_told(call, &mut shelf, alloc);
        let is_whole = if told == Told::Replaced {
            is_as(&shelf, new, at(changed))
        } else {
            is_as(&shelf, old, at(1))
        };
        let is_locked = shelf.file(Path::new("index.lock")).is_some();
        tally.count(told, is_locked, !is_whole);
        if taken.get() < step {
            break;
        }
    }
    Ok(tally)
}

/// Returns the bytes of an index with these flags.
fn bytes_of(alloc: Global, flags: Flags, options: Options) -> Result<Vec<u8>, AllocError> {
    let taken = Cell::new(0);
    let steps = Steps {
        taken: &taken,
        fault: Fault::Never,
    };
    let mut shelf = shelf_with(alloc, steps, b"")?;
    write_told(&mut shelf, alloc, flags, options);
    match shelf.file(Path::new("index")) {
        Some(kept) => kept.bytes.clone(),
        None => Ok(Vec::new(alloc)),
    }
}

/// How often reading a split index failed.
#[derive(Clone, Copy, Debug, Default, PartialEq, Eq)]
struct Refusals {
    /// How often the error named the file of the split index.
    own: u32,
    /// How often the error named the shared index.
    shared: u32,
    /// How often reading failed with another error.
    others: u32,
    /// The number of entries that were read in the end.
    entries: usize,
}

impl Refusals {
    /// Counts one more error.
    fn count(&mut self, error: &init::Error) {
        let count = match error {
            init::Error::Io(fault) if fault.path.as_path().as_str() == "index" => &mut self.own,
            init::Error::Io(fault) if fault.path.as_path().as_str() == SHARED => &mut self.shared,
            _ => &mut self.others,
        };
        *count = count.saturating_add(1);
    }
}

/// Reads a split index with an error at each step, until reading succeeds.
fn read_split(alloc: Global, shared: &[u8]) -> Result<Refusals, AllocError> {
    let mut refusals = Refusals::default();
    for step in 1..100 {
        let taken = Cell::new(0);
        let steps = Steps {
            taken: &taken,
            fault: Fault::At(step),
        };
        let mut shelf = shelf_with(alloc, steps, SPLIT)?;
        let bytes = shared.to_vec(alloc)?;
        shelf.keep(Path::new(SHARED), kept(bytes))?;
        let path = PathBuf::from_str(alloc, "index")?;
        match File::at_in(&shelf, alloc, path, reading()) {
            Ok(file) => {
                refusals.entries = file.entries().len();
                break;
            }
            Err(e) => refusals.count(&e),
        }
    }
    Ok(refusals)
}

#[test]
fn no_fault_tears_an_index(rt: HostRuntime) -> Result<(), Fail> {
    let alloc = rt.alloc();
    let old = bytes_of(alloc, OLD, Options::default())?;
    let new = bytes_of(alloc, NEW, Options::default())?;
    // (an error that lasts from the step after the creation of the lock prevents the removal of the lock)
    let wanted = [
        (Call::Commit, false, 17, 0, 0),
        (Call::Commit, true, 17, 0, 15),
        (Call::Release, false, 14, 0, 1),
        (Call::Release, true, 14, 0, 11),
        (Call::Write, false, 3, 1, 0),
        (Call::Write, true, 3, 1, 2),
    ];
    for (call, lasts, kept, named, locks) in wanted {
        let tally = Tally {
            kept,
            unmade: named,
            unwritten: named,
            unmoved: named,
            locks,
            torn: 0,
        };
        assert_eq!(rt; tried(alloc, call, lasts, &old, &new)?, tally);
    }
    Ok(())
}

#[test]
fn a_fault_names_the_file_that_is_read(rt: HostRuntime) -> Result<(), Fail> {
    let options = Options {
        skip_hash: true,
        ..Options::default()
    };
    let shared = bytes_of(rt.alloc(), OLD, options)?;
    let wanted = Refusals {
        own: 9,
        shared: 9,
        others: 0,
        entries: 2,
    };
    assert_eq!(rt; read_split(rt.alloc(), &shared)?, wanted);
    Ok(())
}

/// Locks, changes and commits the index on a shelf. Returns whether all of these hold:
///
/// - The index was locked and committed, and a second lock failed in the meantime.
/// - The index had two entries. Each had the new flags if `is_new`, and none had them otherwise.
/// - The committed file is durable exactly if `is_synced`.
fn is_committed(shelf: &mut Shelf<'_>, alloc: Global, is_new: bool, is_synced: bool) -> bool {
    let Ok(path) = PathBuf::from_str(alloc, "index") else {
        return false;
    };
    let Ok(mut locked) = File::lock(shelf, alloc, path, reading(), IfMissing::Fail) else {
        return false;
    };
    let is_held = is_held(shelf, alloc);
    let mut is_read = locked.file.entries().len() == 2;
    for entry in locked.file.entries_mut() {
        is_read &= entry.flags.contains(NEW) == is_new;
        entry.flags = NEW;
    }
    let durable = if is_synced { Durable::Yes } else { Durable::No };
    if locked
        .commit(shelf, alloc, Options::default(), durable)
        .is_err()
    {
        return false;
    }
    match shelf.file(Path::new("index")) {
        Some(kept) => is_held && is_read && kept.is_durable == is_synced,
        None => false,
    }
}

/// Returns whether the index on a shelf can't be locked because its lock exists.
fn is_held(shelf: &mut Shelf<'_>, alloc: Global) -> bool {
    let Ok(path) = PathBuf::from_str(alloc, "index") else {
        return false;
    };
    match File::lock(shelf, alloc, path, reading(), IfMissing::Fail) {
        Err(lock::Error::Lock(lock::Fault::Held(lock))) => lock.as_path().as_str() == "index.lock",
        _ => false,
    }
}

#[test]
fn a_second_lock_is_refused_till_the_first_is_gone(rt: HostRuntime) -> Result<(), Fail> {
    let alloc = rt.alloc();
    let taken = Cell::new(0);
    let steps = Steps {
        taken: &taken,
        fault: Fault::Never,
    };
    let bytes = bytes_of(alloc, OLD, Options::default())?;
    let mut alone = shelf_with(alloc, steps, &bytes)?;
    assert!(rt; is_committed(&mut alone, alloc, false, true));
    let mut shared = shelf_with(alloc, steps, &bytes)?.shared();
    assert!(rt; is_committed(&mut shared, alloc, false, false));
    assert!(rt; is_committed(&mut shared, alloc, true, true));
    Ok(())
}
