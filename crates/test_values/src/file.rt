//! Tests of files that are taken apart, borrowed and cloned.

use gix_index::entry::{FileTime, Flags, Mode, Stage, Stat};
use gix_index::hash::{Kind, ObjectId};
use gix_index::{File, State};
use std::alloc::{AllocError, Global};
use std::path::PathBuf;
use std::test::Fail;

/// Returns a new file `made.index` with the entry `a`.
fn made(alloc: Global) -> Result<File, Fail> {
    let mut state = State::new(alloc, Kind::Sha1, FileTime::EPOCH);
    let id = ObjectId::Sha1([0x11; 20]);
    let flags = Flags::from_stage(Stage::Unconflicted);
    state.dangerously_push_entry(Stat::default(), id, flags, Mode::FILE, b"a")?;
    Ok(File::from_state(state, PathBuf::from_str(alloc, "made.index")?))
}

#[test]
fn a_file_is_taken_apart(rt: HostRuntime) -> Result<(), Fail> {
    let moved = PathBuf::from_str(rt.alloc(), "moved.index")?;
    let mut file = made(rt.alloc())?;
    assert_eq!(rt; file.path().to_string_lossy(), "made.index");
    assert_eq!(rt; file.checksum(), None);
    file.set_path(moved);
    let (state, path) = file.into_parts();
    assert_eq!(rt; state.path_backing(), b"a".as_slice());
    assert_eq!(rt; path.as_path().to_string_lossy(), "moved.index");
    Ok(())
}

#[test]
fn a_file_lends_its_state(rt: HostRuntime) -> Result<(), Fail> {
    let mut file = made(rt.alloc())?;
    for entry in file.entries_mut() {
        entry.flags = Flags::ASSUME_VALID;
    }
    let flags = file.entries().first().map(|entry| entry.flags);
    assert_eq!(rt; flags, Some(Flags::ASSUME_VALID));
    Ok(())
}

#[test]
fn a_file_becomes_its_state(rt: HostRuntime) -> Result<(), Fail> {
    let state = State::from(made(rt.alloc())?);
    assert_eq!(rt; state.path_backing(), b"a".as_slice());
    Ok(())
}

/// Returns the number of entries of a clone.
fn copied_len(file: &File) -> Result<usize, AllocError> {
    Ok(file.clone()?.entries().len())
}

#[test]
fn a_file_is_copied(rt: HostRuntime) -> Result<(), Fail> {
    let file = made(rt.alloc())?;
    assert_eq!(rt; copied_len(&file)?, 1);
    Ok(())
}
