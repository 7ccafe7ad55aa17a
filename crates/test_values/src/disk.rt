//! Tests of a file that is verified after the index was written to it, and of one whose lock is held.

use gix_index::entry::{FileTime, Flags, Mode, Stage, Stat};
use gix_index::file::{verify, write};
use gix_index::hash::{Kind, ObjectId};
use gix_index::write::Options;
use gix_index::{File, State};
use std::alloc::{AllocError, Global};
use std::fs;
use std::path::PathBuf;
use std::test::Fail;

/// Returns an index with one entry for the file at `path`.
fn file_of(alloc: Global, path: &str) -> Result<File, AllocError> {
    let mut state = State::new(alloc, Kind::Sha1, FileTime::EPOCH);
    let flags = Flags::from_stage(Stage::Unconflicted);
    let id = ObjectId::Sha1([1; 20]);
    state.dangerously_push_entry(Stat::default(), id, flags, Mode::FILE, b"a")?;
    Ok(File::from_state(state, PathBuf::from_str(alloc, path)?))
}

/// Writes an index to its file and describes the result.
fn write_told(rt: &HostRuntime, file: &mut File, skip_hash: bool) -> &'static str {
    let options = Options {
        skip_hash,
        ..Options::default()
    };
    match file.write(rt, rt.alloc(), options) {
        Ok(()) => "written",
        Err(write::Error::AcquireLock(_)) => "no lock",
        Err(write::Error::Io(_)) => "no bytes in the lock",
        Err(write::Error::CommitLock(_)) => "no place for the lock",
        Err(write::Error::Memory) => "no memory",
        Err(_) => "no such index",
    }
}

/// Compares the bytes in the index's file with its checksum and describes the result.
fn verify_told(rt: &HostRuntime, file: &File) -> &'static str {
    match file.verify_integrity(rt, rt.alloc()) {
        Ok(()) => "intact",
        Err(verify::Error::Io(_)) => "no file",
        Err(verify::Error::TooShort) => "too short",
        Err(verify::Error::Verify(_)) => "changed",
        Err(verify::Error::Memory) => "no memory",
    }
}

#[test]
fn a_file_is_verified(rt: HostRuntime) -> Result<(), Fail> {
    let mut file = file_of(rt.alloc(), "verified")?;
    assert_eq!(rt; write_told(&rt, &mut file, false), "written");
    assert_eq!(rt; verify_told(&rt, &file), "intact");
    fs::write(&rt, "verified", [0; 20].as_slice())?;
    assert_eq!(rt; verify_told(&rt, &file), "changed");
    fs::write(&rt, "verified", [0; 19].as_slice())?;
    assert_eq!(rt; verify_told(&rt, &file), "too short");
    fs::remove_file(&rt, "verified")?;
    assert_eq!(rt; verify_told(&rt, &file), "no file");
    assert_eq!(rt; write_told(&rt, &mut file, true), "written");
    assert_eq!(rt; file.checksum(), None);
    fs::remove_file(&rt, "verified")?;
    assert_eq!(rt; verify_told(&rt, &file), "intact");
    Ok(())
}

#[test]
fn a_held_lock_changes_nothing(rt: HostRuntime) -> Result<(), Fail> {
    let mut file = file_of(rt.alloc(), "held")?;
    let before = file.clone()?;
    fs::write(&rt, "held.lock", b"".as_slice())?;
    assert_eq!(rt; write_told(&rt, &mut file, false), "no lock");
    assert!(rt; file.entries() == before.entries());
    assert_eq!(rt; file.version(), before.version());
    assert_eq!(rt; file.checksum(), None);
    fs::remove_file(&rt, "held.lock")?;
    Ok(())
}
