//! Changing an index by the rows of a caller's table.

ghost use Rattle.index_c.specs.Updated.{SharedFailureCodes, UpdateCodes};
ghost use Rattle.index_c.specs.Writes.{Changes};
ghost use Rattle.index_c.specs.Written.{NoTreeCodes};
ghost use Rattle.index_c.specs.declared.status.TheConstants.{MEMORY, NO_ROOM};

use crate::fault::{number_of_error, status_of_error};
use crate::number::{kind_of, number_of_whose};
use crate::write::{Written, tell, tell_wrong_number, told_of_fault};
use capi_table::fault::Failure;
use capi_table::over::CachedTree;
use capi_table::row::Row;
use capi_table::update::update;
use capi_table::write::{Image, Unwritten};
use std::alloc::Global;

/// Reports why the bytes of the index, or of its shared index, aren't read, and returns the status.
fn tell_unread(failure: &Failure, told: &mut Written) -> u32
    ensures { NoTreeCodes MEMORY (SharedFailureCodes failure.now) result told.new }
{
    let fault = number_of_error(&failure.error);
    *told = Written {
        of_shared: number_of_whose(failure.whose),
        ..told_of_fault(fault.number, fault.place, CachedTree::Absent)
    };
    status_of_error(&failure.error)
}

/// Reports the result of changing an index, and returns the status.
fn tell_updated(updated: &Result<Result<Image, Unwritten>, Failure>, told: &mut Written) -> u32
    ensures { NoTreeCodes NO_ROOM (UpdateCodes updated.now) result told.new }
{
    match updated {
        Ok(written) => tell(written, CachedTree::Absent, told),
        Err(failure) => tell_unread(failure, told),
    }
}

/// Changes an index with the shared index that it links to, each given as all bytes of its file. Writes the result, in
/// the index's version and with its checksum, as all bytes of the index that replaces it.
///
/// The bytes are read as `gix_index_read_split` reads them, with their checksum. What is written links to no shared
/// index. The rows are changes, made one after another:
///
/// - A row stages its entry at its path and stage, as `git update-index --index-info` does.
/// - A row that is marked `REMOVE` removes its path, at each stage.
///
/// The cache tree, the untracked cache, resolve-undo and a file system monitor's response are preserved as git does
/// then.
///
/// - `DONE`: the first bytes of the room are the index.
/// - `NO_ROOM`: the index has more bytes than the room, and their number is reported.
/// - `REFUSED`: the bytes are rejected, with the error that `gix_index_read_split` reports. Or the index's entry at
///   `fault_place` is out of order (`ORDER`). Or the row at `fault_place` can't be staged because of its mode (`MODE`),
///   a name of its path (`NAME`) or another reason (`ROW`). Or a file can't hold the result.
/// - `MEMORY`: an allocation failed.
/// - `WRONG_NUMBER`: the hash algorithm is invalid.
///
/// With each status except `DONE` the room is as it was. The report is always written.
#[unsafe(no_mangle)]
pub extern "C" fn gix_index_update(
    alloc: Global,
    rows: &[Row],
    paths: &[u8],
    index: &[u8],
    shared: &[u8],
    kind: u32,
    bytes: &mut [u8],
    told: &mut Written,
) -> u32
    ensures { Changes kind index.now shared.now paths.now rows.now bytes.old bytes.new told.new
        result }
{
    let Some(kind) = kind_of(kind) else {
        return tell_wrong_number(told);
    };
    let updated = update(alloc, rows, paths, index, shared, kind, bytes);
    tell_updated(&updated, told)
}
