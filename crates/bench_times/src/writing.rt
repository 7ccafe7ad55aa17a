//! Writing an index to memory.

use crate::clock::{self, Clock};
use gix_index::hash::io::Plain;
use gix_index::{File, write};
use std::alloc::Global;
use std::io;

/// Writes the index to memory with a capacity of `room` bytes. Returns the nanoseconds, or 0 if no time is measured,
/// and the bytes. With `skip_hash` the digest is null. If the index can't be written, the error is
/// [`InvalidData`](io::ErrorKind::InvalidData).
pub fn written(
    clock: Clock<'_>,
    alloc: Global,
    file: &File,
    room: usize,
    skip_hash: bool,
) -> io::Result<(u64, Vec<u8>)> {
    let options = write::Options {
        skip_hash,
        ..write::Options::default()
    };
    let mut out = Plain::new(Vec::with_capacity(alloc, room)?);
    let begin = clock::now(clock)?;
    let is_written = file.write_to(&mut out, options).is_ok();
    let nanoseconds = clock::since(clock, begin)?;
    if is_written {
        Ok((nanoseconds, out.inner))
    } else {
        Err(io::Error::from(io::ErrorKind::InvalidData))
    }
}
