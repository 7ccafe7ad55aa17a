//! Reading a large index file from the disk.

ghost use Rattle.std.specs.Prelude.{◌≡◌, ◌≤◌, length, true, IfErr, IfNone, IfOk, IfSome};
ghost use Rattle.file_place.specs.Sizes.{IsOwnFault, max_len};
ghost use Rattle.file_place.specs.Sources.{KeepsFile, ReturnsToStart};
ghost use Rattle.file_place.specs.World.{whole_of};
ghost use Rattle.file_windows.specs.Answers.{IsAllOf, IsWindowed};
ghost use Rattle.file_windows.specs.Windowed.{IfGiven};

use crate::ReadOptions;
use crate::disk::ends_in_null;
use crate::plan::KEPT_LEN;
use crate::windows::{WindowedIndex, place_in, read_windows};
use file_place::folder::Source;
use file_place::pieces::fill;
use file_place::whole::{MAX_LEN, too_long};
use std::alloc::Global;
use std::io;

/// The length in bytes below which a file is read at once, not in windows.
const SMALL_LEN: u64 = 1_048_576;

/// Returns the last bytes of a file with `len` bytes. Afterwards the file is at its start.
fn end_of<S: Source>(alloc: Global, file: &mut S, len: u64) -> io::Result<Vec<u8>>
    ensures { ReturnsToStart S.Source file.old file.new result }
{
    let mut end = Vec::with_capacity(alloc, KEPT_LEN)?;
    file.go_to(len.saturating_sub(KEPT_LEN as u64))?;
    fill(file, &mut end, KEPT_LEN)?;
    end.truncate(KEPT_LEN);
    file.go_to(0)?;
    Ok(end)
}

/// Returns whether an end marker names an offset after the end of a file with `len` bytes. No window would be large
/// enough.
fn is_behind(offset: Option<usize>, len: u64) -> bool {
    match offset {
        Some(place) => place as u64 > len,
        None => false,
    }
}

/// Reads a regular file in windows, and returns the index in it. If not all bytes after the entries are wanted,
/// extensions that the library doesn't know are left out of them.
///
/// Returns `None` if the file is small, isn't a regular file (such as a pipe), isn't a valid index, or changes
/// meanwhile. Then a regular file is at its start again, and the caller has to read all of it at once.
pub fn in_windows<S: Source>(
    alloc: Global,
    file: &mut S,
    reading: ReadOptions,
    keeps_ending: bool,
) -> io::Result<Option<WindowedIndex>>
    requires { S.remaining file.old ≡ whole_of (S.stored file.old) }
    ensures read { IfGiven result (IsWindowed reading keeps_ending (IsAllOf (S.stored file.old))) }
    ensures back { IfOk result
        (λ o. IfNone o (S.remaining file.new ≡ whole_of (S.stored file.new))) }
    ensures left { KeepsFile S.Source file.old file.new }
    ensures bound { IfOk result
        (λ _. IfSome (S.stored file.old) (λ whole. length whole.bytes ≤ max_len)) }
    ensures fault { S.works file.old ≡ true
        → IfErr result (IsOwnFault (whole_of (S.stored file.old))) }
{
    let status = file.status()?;
    let len = status.len;
    if !status.is_plain || len < SMALL_LEN {
        return Ok(None);
    }
    if len > MAX_LEN {
        return Err(too_long());
    }
    let end = end_of(alloc, file, len)?;
    // (whether a marker at the end is valid is checked once the entries are read)
    let offset = place_in(&end);
    if is_behind(offset, len) {
        return Ok(None);
    }
    let is_hashed = !reading.skip_hash && !ends_in_null(reading.object_hash, &end);
    if let Ok(Some(read)) = read_windows(
        alloc,
        file,
        len,
        is_hashed,
        offset,
        reading,
        keeps_ending,
    ) {
        return Ok(Some(read));
    }
    file.go_to(0)?;
    Ok(None)
}
