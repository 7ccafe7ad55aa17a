//! Reads bytes as a state or as a file.

use gix_index::entry::FileTime;
use gix_index::hash::{Kind, ObjectId};
use gix_index::{File, State, decode};
use std::alloc::AllocError;
use std::path::PathBuf;
use test_row_kit::{Lines, refusal};

/// How bytes are read: as a state, or as a file. For a file the digest is compared first, unless `skip_hash` is set.
#[derive(Clone, Copy)]
pub enum Reading {
    State(decode::Options),
    File { skip_hash: bool },
}

/// Decodes the bytes. Returns the state and the id at the end of the bytes, or `None` after it has appended the line of
/// an error.
pub fn read(
    out: &mut Lines,
    kind: Kind,
    bytes: &[u8],
    reading: Reading,
) -> Result<Option<(State, Option<ObjectId>)>, AllocError> {
    match reading {
        Reading::State(options) => Ok(read_state(out, kind, bytes, options)),
        Reading::File { skip_hash } => read_file(out, kind, bytes, skip_hash),
    }
}

fn read_state(
    out: &mut Lines,
    kind: Kind,
    bytes: &[u8],
    options: decode::Options,
) -> Option<(State, Option<ObjectId>)> {
    match State::from_bytes(out.alloc(), bytes, FileTime::EPOCH, kind, options) {
        Ok(read) => Some(read),
        Err(e) => {
            refusal::decode(out, &e);
            None
        }
    }
}

fn read_file(
    out: &mut Lines,
    kind: Kind,
    bytes: &[u8],
    skip_hash: bool,
) -> Result<Option<(State, Option<ObjectId>)>, AllocError> {
    let (alloc, time, options) = (out.alloc(), FileTime::EPOCH, decode::Options::default());
    let path = PathBuf::from_str(alloc, "index")?;
    match File::decode(alloc, bytes, path, kind, skip_hash, time, options) {
        Ok(file) => {
            let checksum = file.checksum();
            Ok(Some((file.into_parts().0, checksum)))
        }
        Err(e) => {
            refusal::file(out, &e);
            Ok(None)
        }
    }
}
