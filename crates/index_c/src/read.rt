//! Reading an index into a caller's table.

ghost use Rattle.index_c.specs.Reads.{ReadsSplit, ReadsTable};
ghost use Rattle.index_c.specs.Statuses.{SummaryCodes};
ghost use Rattle.index_c.specs.Summaries.{ReadCodes};

use crate::number::kind_of;
use crate::status::{DONE, NO_ROOM};
use crate::summary::{Summary, summary_of, tell_failure, tell_wrong_number};
use capi_table::read::{Sizes, Unread, read_table};
use capi_table::row::Row;
use capi_table::split::read_split;
use std::alloc::Global;

/// Reports the result of reading bytes into a table, and returns the status.
fn tell(alloc: Global, read: Result<Sizes, Unread>, text: &mut [u8], summary: &mut Summary) -> u32
    ensures { SummaryCodes NO_ROOM (ReadCodes read) result summary.new text.old text.new }
{
    let (status, sizes) = match read {
        Ok(sizes) => (DONE, sizes),
        Err(Unread::NoRoom(sizes)) => (NO_ROOM, sizes),
        Err(Unread::Failed(failure)) => return tell_failure(alloc, &failure, text, summary),
    };
    *summary = summary_of(&sizes);
    status
}

/// Reads an index from all bytes of its file into a table in the caller's memory.
///
/// The hash algorithm is `SHA1` or `SHA256`. The checksum of all bytes before the trailer is compared with the trailer,
/// unless that is null or `skip_hash` is set. A link to a shared index isn't followed.
///
/// - `DONE`: the first rows and the first bytes for paths have the entries, in the order of the file.
/// - `REFUSED`: the bytes are no index with this hash algorithm.
/// - `MEMORY`: an allocation failed.
/// - `NO_ROOM`: the summary has how many rows and bytes for paths are needed.
/// - `WRONG_NUMBER`: the hash algorithm is invalid.
///
/// With each status except `DONE` rows and paths are as they were. The summary is always written. What follows the
/// entries, the paths and the text is never changed.
#[unsafe(no_mangle)]
pub extern "C" fn gix_index_read(
    alloc: Global,
    bytes: &[u8],
    kind: u32,
    skip_hash: bool,
    rows: &mut [Row],
    paths: &mut [u8],
    text: &mut [u8],
    summary: &mut Summary,
) -> u32
    ensures { ReadsTable kind skip_hash bytes.now summary.new rows.old rows.new paths.old paths.new
        text.old text.new result }
{
    let Some(kind) = kind_of(kind) else {
        return tell_wrong_number(summary);
    };
    let read = read_table(alloc, bytes, kind, skip_hash, rows, paths);
    tell(alloc, read, text, summary)
}

/// Reads an index with the shared index that it links to into a table in the caller's memory. Each is given as all
/// bytes of its file.
///
/// Both are read as `gix_index_read` reads bytes. If there is no link, or its id is zeros, the shared bytes aren't
/// read, and any are accepted. Otherwise the shared file's trailer must be the link's id, or zeros. The table then has
/// the entries of both, joined by the link (gitformat-index, "Split index"). So with `DONE` and `NO_ROOM` the summary
/// has no link.
///
/// `REFUSED`: the bytes are no index with this hash algorithm. With `of_shared`, those of the shared index are none, or
/// are those of another shared index. With the error `LINK`, the two don't match. Everything else is as in
/// `gix_index_read`.
#[unsafe(no_mangle)]
pub extern "C" fn gix_index_read_split(
    alloc: Global,
    bytes: &[u8],
    shared: &[u8],
    kind: u32,
    skip_hash: bool,
    rows: &mut [Row],
    paths: &mut [u8],
    text: &mut [u8],
    summary: &mut Summary,
) -> u32
    ensures { ReadsSplit kind skip_hash bytes.now shared.now summary.new rows.old rows.new paths.old
        paths.new text.old text.new result }
{
    let Some(kind) = kind_of(kind) else {
        return tell_wrong_number(summary);
    };
    let read = read_split(alloc, bytes, shared, kind, skip_hash, rows, paths);
    tell(alloc, read, text, summary)
}
