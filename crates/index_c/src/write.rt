//! Writing a caller's table as an index.

ghost use Rattle.std.specs.Prelude.{◌≡◌, ◌↔◌, IfSome, None};
ghost use Rattle.index_c.specs.Writes.{WritesForm, WritesInPlace};
ghost use Rattle.index_c.specs.Written.{Asks, HasWrongNumber, TableCodes, ReplaceCodes, UnreadCodes, WrittenCodes, WrongNumberCodes, write_error_report, image_report};

use crate::fault::{number_of_error, number_of_table, status_of_error};
use crate::number::{OWN, choice_of, kind_of, number_of_tree};
use crate::status::{DONE, MEMORY, NO_ROOM, REFUSED, WRONG_NUMBER};
use capi_table::over::{CachedTree, Replacement, write_over};
use capi_table::row::Row;
use capi_table::write::{Format, Image, Unwritten, write_table};
use gix_index::file;
use std::alloc::Global;

/// How a table is to be written.
#[repr(C)]
#[derive(Clone, Copy)]
pub struct Form {
    /// The hash algorithm of the ids and of the checksum.
    pub kind: u32,
    /// 4; or 2 or 3, which both request the smaller of these two that has the flags.
    pub version: u32,
    /// Whether the trailer is zeros in place of the checksum.
    pub skip_hash: bool,
}

/// What a call that writes reports in addition to its status.
#[repr(C)]
#[derive(Clone, Copy)]
pub struct Written {
    /// The number of bytes of the index.
    pub bytes: usize,
    /// The index of the row or entry that the error names, or 0.
    pub fault_place: usize,
    /// The error's number, or 0.
    pub fault: u32,
    /// The version: 2, 3 or 4.
    pub version: u32,
    /// What became of the cache tree extension of an index that was written over.
    pub tree: u32,
    /// 1 if the error is in the shared index of one that is updated, or memory ran out for it; else 0.
    pub of_shared: u32,
}

/// Returns the format that a form requests, or `None` if it has an invalid number.
fn format_of(form: &Form) -> Option<Format>
    ensures asks { IfSome result (Asks form.now) }
    ensures wrong { result ≡ None ↔ HasWrongNumber form.now }
{
    Some(Format {
        kind: kind_of(form.kind)?,
        version: choice_of(form.version)?,
        skip_hash: form.skip_hash,
    })
}

/// Returns the report of an image and of a cache tree.
fn told_of_image(image: &Image, tree: CachedTree) -> Written
    ensures { result ≡ image_report image.now tree }
{
    Written {
        bytes: image.bytes,
        fault_place: 0,
        fault: 0,
        version: image.version as u32,
        tree: number_of_tree(tree),
        of_shared: OWN,
    }
}

/// Returns the report of an error with an index, and of a cache tree.
pub(crate) fn told_of_fault(fault: u32, fault_place: usize, tree: CachedTree) -> Written
    ensures { result ≡ write_error_report fault fault_place tree }
{
    Written {
        bytes: 0,
        fault_place,
        fault,
        version: 0,
        tree: number_of_tree(tree),
        of_shared: OWN,
    }
}

/// Reports the result of writing a table, and of a cache tree, and returns the status.
pub(crate) fn tell(written: &Result<Image, Unwritten>, tree: CachedTree, told: &mut Written) -> u32
    ensures { WrittenCodes NO_ROOM (TableCodes written.now tree) result told.new }
{
    let (status, said) = match written {
        Ok(image) => (DONE, told_of_image(image, tree)),
        Err(Unwritten::NoRoom(image)) => (NO_ROOM, told_of_image(image, tree)),
        Err(Unwritten::Refused(fault)) => {
            let fault = number_of_table(*fault);
            (REFUSED, told_of_fault(fault.number, fault.place, tree))
        }
        Err(Unwritten::Memory) => (MEMORY, told_of_fault(0, 0, tree)),
    };
    *told = said;
    status
}

/// Reports why the bytes of the index that is written over aren't read, and returns the status.
fn tell_unread(e: &file::init::Error, told: &mut Written) -> u32
    ensures { WrittenCodes MEMORY (UnreadCodes e.now) result told.new }
{
    let fault = number_of_error(e);
    *told = told_of_fault(fault.number, fault.place, CachedTree::Absent);
    status_of_error(e)
}

/// Reports the result of writing a table over an index, and returns the status.
fn tell_over(over: &Result<Replacement, file::init::Error>, told: &mut Written) -> u32
    ensures { WrittenCodes NO_ROOM (ReplaceCodes over.now) result told.new }
{
    match over {
        Ok(replaced) => tell(&replaced.written, replaced.tree, told),
        Err(e) => tell_unread(e, told),
    }
}

/// Reports that a number of the form is invalid, and returns `WRONG_NUMBER`.
pub(crate) fn tell_wrong_number(told: &mut Written) -> u32
    ensures { WrongNumberCodes result told.new }
{
    *told = told_of_fault(0, 0, CachedTree::Absent);
    WRONG_NUMBER
}

/// Writes a table, as `gix_index_read` fills one, as all bytes of an index without extensions.
///
/// - `DONE`: the first bytes of the room are the index.
/// - `NO_ROOM`: the index has more bytes than the room, and their number is reported.
/// - `REFUSED`: the row at `fault_place` can't be in such a file (`ROW`, `MODE`), or isn't above the one before it by
///   path, then by stage (`ORDER`). Or there are more rows (`COUNT`) or bytes (`LENGTH`) than a file can count.
/// - `MEMORY`: an allocation failed. Each row can be in such a file, and they are in order.
/// - `WRONG_NUMBER`: the hash algorithm or the version is invalid.
///
/// With each status except `DONE` the room is as it was. The report is always written. What follows the index in the
/// room is never changed.
#[unsafe(no_mangle)]
pub extern "C" fn gix_index_write(
    alloc: Global,
    rows: &[Row],
    paths: &[u8],
    form: &Form,
    bytes: &mut [u8],
    told: &mut Written,
) -> u32
    ensures { WritesForm form.now paths.now rows.now bytes.old bytes.new told.new result }
{
    let Some(format) = format_of(form) else {
        return tell_wrong_number(told);
    };
    let written = write_table(alloc, rows, paths, &format, bytes);
    tell(&written, CachedTree::Absent, told)
}

/// Writes a table as all bytes of an index that replaces another, given as all bytes of its file. Those are read as
/// `gix_index_read` reads them, with their checksum, and aren't needed afterwards.
///
/// - The mark of a sparse index is preserved, and then rows may represent directories.
/// - The cache tree extension (TREE) is preserved exactly if it matches what the rows give. No row may have an error,
///   except those in conflict. Each node of it that has a count must have the id and the count that `git write-tree`
///   gives its directory. No row in conflict may be below that directory. What became of it is reported.
/// - Other extensions aren't preserved. An end marker follows those that are.
///
/// `DONE`, `NO_ROOM`, `REFUSED` and `WRONG_NUMBER` are as in `gix_index_write`. `REFUSED` is also returned first if the
/// bytes of the index are rejected, with the error that `gix_index_read` reports. `MEMORY`: an allocation failed.
#[unsafe(no_mangle)]
pub extern "C" fn gix_index_write_over(
    alloc: Global,
    rows: &[Row],
    paths: &[u8],
    index: &[u8],
    form: &Form,
    bytes: &mut [u8],
    told: &mut Written,
) -> u32
    ensures { WritesInPlace form.now index.now paths.now rows.now bytes.old bytes.new told.new
        result }
{
    let Some(format) = format_of(form) else {
        return tell_wrong_number(told);
    };
    let over = write_over(alloc, rows, paths, index, &format, bytes);
    tell_over(&over, told)
}
