//! Reading an open file piece by piece into a buffer that is reused.

ghost use Rattle.std.specs.Prelude.{◌≡◌, ◌≤◌, drop, vec_len};
ghost use Rattle.file_place.specs.Calls.{ReadsSome};
ghost use Rattle.file_place.specs.Sources.{AppendsPiece, FillsBuffer};

use crate::folder::Source;
use std::alloc::AllocError;
use std::io;
use std::io::ErrorKind;

/// The number of bytes that are read before they are hashed. They still are in the processor's cache then, and
/// preparing the room of a piece costs little compared with them.
const PIECE_LEN: usize = 1_048_576;

/// The number of times a read is tried that a signal interrupts.
const MAX_TRIES: u32 = u32::MAX;

/// Reads once into `room` and returns the number of bytes. The read is repeated if a signal interrupts it. Fails with
/// [`ErrorKind::TimedOut`] if signals interrupt 2^32 - 1 reads in a row.
fn read_once<S: Source>(file: &mut S, room: &mut [u8]) -> io::Result<usize>
    ensures { ReadsSome S.remaining S.stored S.works file.old file.new result room.new }
{
    for _ in 0..MAX_TRIES {
        match file.read(room) {
            Err(e) if e.kind() == ErrorKind::Interrupted => {}
            answer => return answer,
        }
    }
    Err(io::Error::new(ErrorKind::TimedOut, "signals interrupted each try to read"))
}

/// Appends the bytes of one read of `file` and returns their number. If there is spare capacity, it takes no more than
/// that, and at most a piece. Returns 0 only at the end of the file.
pub fn append_piece<S: Source>(file: &mut S, bytes: &mut Vec<u8>) -> io::Result<usize>
    ensures { AppendsPiece S.Source file.old file.new bytes.old.items bytes.new.items result }
{
    let filled = bytes.len();
    let spare = bytes.capacity() - filled;
    let room = if spare == 0 {
        PIECE_LEN
    } else {
        spare.min(PIECE_LEN)
    };
    let end = filled.checked_add(room).ok_or(AllocError)?;
    bytes.resize(end, 0)?;
    let count = read_once(file, &mut bytes[filled..])?;
    bytes.truncate(filled + count);
    Ok(count)
}

/// Reads until `bytes` has `len` bytes, or the file ends. Returns the number of bytes that were read.
pub fn fill<S: Source>(file: &mut S, bytes: &mut Vec<u8>, len: usize) -> io::Result<usize>
    ensures { FillsBuffer S.Source file.old file.new bytes.old.items bytes.new.items len result }
{
    let start = bytes.len();
    'pieces: loop {
        let count = append_piece(file, bytes)?;
        if count == 0 || bytes.len() >= len {
            return Ok(bytes.len() - start);
        }
    }
}

/// Removes the first `count` bytes. The capacity doesn't change.
pub fn remove_front(bytes: &mut Vec<u8>, count: usize)
    requires { count ≤ vec_len bytes.old }
    ensures { bytes.new.items ≡ drop count bytes.old.items }
{
    let len = bytes.len();
    bytes.as_mut_slice().copy_within(count..len, 0);
    bytes.truncate(len - count);
}
