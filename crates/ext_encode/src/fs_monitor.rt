//! Writes the file system monitor extension, and checks it against the number of entries (gitformat-index, "File System
//! Monitor cache").

ghost use Rattle.std.specs.Prelude.{◌≡◌, ◌+◌, ◌<◌, ◌^◌, false, length};
ghost use Rattle.ext_bitmap.specs.UnpackingSteps.{items_left};
ghost use Rattle.index_parts.specs.Numbers.{within_32};
ghost use Rattle.index_extensions.specs.Encoding.{item_bytes};
ghost use Rattle.index_parts.specs.Puts.{Puts};
ghost use Rattle.ext_small.specs.FsMonitor.{monitor_of, token_value};
ghost use Rattle.ext_bitmap.specs.BitmapImage.{bitmap_bytes, borrowed_bitmap};
ghost use Rattle.ext_encode.specs.MonitorImage.{borrowed_monitor, monitor_bytes, monitor_item};
ghost use Rattle.ext_encode.specs.MonitorImage.{token_bytes, token_version};
ghost use Rattle.ext_encode.specs.MonitorPlaces.{are_below, monitor_is_within};

use ext_bitmap::ewah::{Positions, Run};
use ext_bitmap::pieces::{put_head, put_number, put_text, put_word};
use ext_bitmap::write;
use ext_bitmap::write::{BorrowedVec, borrow_words};
use ext_small::fs_monitor::{FsMonitor, SIGNATURE, Token};
use index_parts::hash::io::Out;
use std::io;

/// The number of bytes of the version and of the size of the bitmap.
const NUMBERS_LEN: u64 = 8;

/// The number of bytes of nanoseconds.
const TIME_LEN: u64 = 8;

/// Returns the version of an extension with such a token.
fn version_of(token: &Token) -> u32
    ensures { result ≡ token_version (token_value token.now) }
{
    match token {
        Token::V1 { .. } => 1,
        Token::V2 { .. } => 2,
    }
}

/// Returns the length in bytes of a token.
fn token_len(token: &Token) -> u64
    ensures len { result ≡ length (token_bytes (token_value token.now)) }
    ensures fits { result < 2 ^ 63 + 8 }
{
    match token {
        Token::V1 { .. } => TIME_LEN,
        Token::V2 { token } => token.as_bytes().len() as u64 + 1,
    }
}

/// Writes a token.
fn put_token<W: Out>(token: &Token, out: &mut W) -> io::Result<()>
    ensures { Puts W.Out out.old out.new result (token_bytes (token_value token.now)) }
{
    match token {
        Token::V1 { nanos_since_1970 } => put_word(*nanos_since_1970, out),
        Token::V2 { token } => put_text(token.as_bytes(), out),
    }
}

/// Writes the content of the extension. `size` is the length of its bitmap in bytes.
fn put_content<W: Out>(
    token: &Token,
    dirty: BorrowedVec<'_>,
    size: u32,
    out: &mut W,
) -> io::Result<()>
    requires size { size ≡ length (bitmap_bytes (borrowed_bitmap dirty)) }
    ensures { Puts W.Out out.old out.new result (monitor_bytes (borrowed_monitor token.now dirty.entry)) }
{
    put_number(version_of(token), out)?;
    put_token(token, out)?;
    put_number(size, out)?;
    write::put(dirty, out)
}

/// Returns the length in bytes of the content of the extension, from borrowed parts.
fn len_of(token: &Token, dirty: BorrowedVec<'_>) -> Option<u32>
    ensures { result ≡ within_32 (length (monitor_bytes (borrowed_monitor token.now dirty.entry))) }
{
    let size = write::content_len(dirty)?;
    let len = NUMBERS_LEN + token_len(token) + u64::from(size);
    if len > u64::from(u32::MAX) {
        return None;
    }
    Some(len as u32)
}

/// Writes the extension from borrowed parts. `len` is the length of its content in bytes.
fn put_parts<W: Out>(token: &Token, dirty: BorrowedVec<'_>, len: u32, out: &mut W) -> io::Result<()>
    requires len { len ≡ length (monitor_bytes (borrowed_monitor token.now dirty)) }
    ensures written { Puts W.Out out.old out.new result
        (item_bytes (monitor_item (borrowed_monitor token.now dirty.entry))) }
{
    let size = (u64::from(len) - NUMBERS_LEN - token_len(token)) as u32;
    put_head(SIGNATURE, len, out)?;
    put_content(token, dirty, size, out)
}

/// Returns the length in bytes of the content of the extension, or `None` if it is more than 2^32 - 1. It allocates no
/// memory.
pub fn content_len(monitor: &FsMonitor) -> Option<u32>
    ensures { result ≡ within_32 (length (monitor_bytes (monitor_of monitor.now))) }
{
    len_of(monitor.token(), borrow_words(monitor.entry_dirty()))
}

/// Writes `monitor` as an extension (gitformat-index, "File System Monitor cache"). It allocates no memory.
///
/// `len` is the length of the content in bytes, as [`content_len`] returns it. An error occurs only if the writer
/// failed, which then took a prefix of the bytes.
pub fn put_item<W: Out>(monitor: &FsMonitor, len: u32, out: &mut W) -> io::Result<()>
    requires len { len ≡ length (monitor_bytes (monitor_of monitor.now)) }
    ensures written { Puts W.Out out.old out.new result
        (item_bytes (monitor_item (monitor_of monitor.now))) }
{
    let token = monitor.token();
    put_parts(token, borrow_words(monitor.entry_dirty()), len, out)
}

/// Returns whether all positions are below `limit`, and the words of the bitmap don't break off. A run of set bits
/// takes one step.
fn are_below(limit: u64, mut positions: Positions<'_>) -> bool
    ensures { result ≡ are_below limit (items_left positions.entry) }
{
    while let Some(position) = positions.next() {
        let Ok(place) = position else {
            return false;
        };
        if place >= limit {
            return false;
        }
        let Run { first, end } = positions.pass_run();
        if first < end && limit < end {
            return false;
        }
    }
    true
}

/// Returns whether the monitor's bitmap fits `count` entries (gitformat-index, "File System Monitor cache").
///
/// It does if the bitmap declares at most `count` bits, sets none after them, and its words don't break off. The n-th
/// bit describes the n-th entry, and git ends with a BUG if a bit after the last entry is set.
///
/// It takes a step for each run of set bits, and for each set bit of a literal word. It allocates no memory.
pub fn is_within(monitor: &FsMonitor, count: u64) -> bool
    ensures { result ≡ monitor_is_within count (monitor_of monitor.now) }
{
    let dirty = monitor.entry_dirty();
    u64::from(dirty.num_bits()) <= count && are_below(count, dirty.positions())
}
