//! Rows about a file: its bytes compared with a checksum, and an index that is written to it.

use gix_index::entry::FileTime;
use gix_index::file::{verify, write};
use gix_index::hash::{Kind, ObjectId};
use gix_index::write::{Options, VersionChoice};
use gix_index::{File, decode};
use std::path::PathBuf;
use test_row_kit::show::{OrNone, Text, entries, version_of};
use test_row_kit::{Fault, Lines, Words, refusal};

/// Appends the line of a comparison of bytes with a checksum.
fn verified(out: &mut Lines, name: &str, answer: Result<(), verify::Error>) {
    match answer {
        Ok(()) => out.put(name, "intact"),
        Err(verify::Error::TooShort) => writeln!(out, "{name}: fault: too short"),
        Err(verify::Error::Verify(e)) => {
            writeln!(
                out,
                "{name}: fault: digest {}, not {}",
                e.actual, e.expected
            );
        }
        Err(verify::Error::Io(fault)) => {
            let path = fault.path.as_str().as_bytes();
            writeln!(out, "{name}: fault: file {}", Text(path));
        }
        Err(verify::Error::Memory) => writeln!(out, "{name}: fault: memory"),
    }
}

/// `verify-bytes`: appends whether bytes have this checksum.
pub fn verify_bytes(out: &mut Lines, words: &mut Words<'_>) -> Result<(), Fault> {
    let bytes = words.bytes()?;
    let Some(checksum) = ObjectId::from_bytes(&words.bytes()?) else {
        return Err(Fault::Wrong("an id"));
    };
    verified(out, "bytes", verify::bytes(&bytes, checksum));
    Ok(())
}

/// Appends the path of the file, or of its lock, for which a step failed.
fn failed(out: &mut Lines, step: &str, path: &PathBuf) {
    writeln!(
        out,
        "write: fault: {step} {}",
        Text(path.as_str().as_bytes())
    );
}

/// Appends the result of writing.
fn written(out: &mut Lines, answer: &Result<(), write::Error>) {
    match answer {
        Ok(()) => out.put("write", "whole"),
        Err(write::Error::AcquireLock(fault)) => failed(out, "lock", &fault.path),
        Err(write::Error::Io(fault)) => failed(out, "file", &fault.path),
        Err(write::Error::CommitLock(fault)) => failed(out, "place", &fault.path),
        Err(write::Error::TooManyEntries) => out.put("write", "fault: too many entries"),
        Err(write::Error::NulInPath) => out.put("write", "fault: nul in a path"),
        Err(write::Error::TooLarge) => out.put("write", "fault: too large"),
        Err(write::Error::Memory) => out.put("write", "fault: memory"),
    }
}

/// Takes the options of writing.
fn options(words: &mut Words<'_>) -> Options {
    let skip_hash = words.has("null");
    let version = if words.has("v4") {
        VersionChoice::V4
    } else {
        VersionChoice::Smallest
    };
    Options {
        skip_hash,
        version,
        ..Options::default()
    }
}

/// `write-file`: writes an index to the file of this name. Appends the result, and the values of the file afterwards.
pub fn write_file(out: &mut Lines, kind: Kind, words: &mut Words<'_>) -> Result<(), Fault> {
    let (rt, alloc) = (words.rt(), out.alloc());
    let bytes = words.bytes()?;
    let path = PathBuf::from_str(alloc, words.next("a file")?)?;
    let options = options(words);
    let (time, reading) = (FileTime::EPOCH, decode::Options::default());
    let mut file = match File::decode(alloc, &bytes, path, kind, false, time, reading) {
        Ok(file) => file,
        Err(e) => {
            refusal::file(out, &e);
            return Ok(());
        }
    };
    let answer = file.write(rt, alloc, options);
    written(out, &answer);
    out.put("version", version_of(file.version()));
    out.put("checksum", OrNone(file.checksum()));
    entries(out, &file);
    if answer.is_ok() {
        verified(out, "verify_integrity", file.verify_integrity(rt, alloc));
    }
    Ok(())
}
