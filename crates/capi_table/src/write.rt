//! Writing a caller's table as an index.

ghost use Rattle.std.specs.Prelude.{◌≡◌, ◌++◌, ◌≤◌, ◌<◌, IfSome, None, drop, false, length, true};
ghost use Rattle.gix_index.specs.State.{contents};
ghost use Rattle.capi_table.specs.Fitting.{IsFitTable, IsUnfitTable};
ghost use Rattle.capi_table.specs.Writing.{IfUnwritten, PutsValue, WritesTable, options_with, unwritten_reason};

use crate::row::Row;
use crate::spell::{contents_of_rows, first_fallen, first_unfit, unfit_fault};
use gix_index::hash::Kind;
use gix_index::hash::io::Plain;
use gix_index::write::{self, Extensions, Options, VersionChoice};
use gix_index::{File, State, Version};
use std::alloc::Global;
use std::path::PathBuf;

/// How a table is to be written.
#[derive(Clone, Copy)]
pub struct Format {
    /// The hash algorithm of the ids and of the checksum.
    pub kind: Kind,
    /// 4, or the smaller of 2 and 3 that has the flags.
    pub version: VersionChoice,
    /// Whether the trailer is zeros in place of the checksum.
    pub skip_hash: bool,
}

/// The size and the version of an image of a table.
#[derive(Clone, Copy)]
pub struct Image {
    /// The number of its bytes.
    pub bytes: usize,
    /// The version.
    pub version: Version,
}

/// Why a file can't hold a table.
#[derive(Clone, Copy)]
pub enum Fault {
    /// The row at this index can't be in a file, or in a tree, and its mode is one of git's.
    Row(usize),
    /// The mode of the row at this index is none of git's.
    Mode(usize),
    /// The row at this index isn't above the one before it, by path, then by stage.
    Order(usize),
    /// Git doesn't allow a name in the path of the row at this index. Only changes and trees return it.
    Name(usize),
    /// The row at this index is in conflict. Only trees return it.
    Unmerged(usize),
    /// The path of the row at this index is below that of another row, as if that were a directory. Or it is in a
    /// directory that another row represents. Only trees and changes return it. A change's path is in a directory that
    /// the index has as one entry.
    Below(usize),
    /// There are more rows than the 4294967295 entries that a file can count, or the 2147483647 that trees can count.
    Count,
    /// The file would have more than the 4294967295 bytes that its offsets can reach.
    Length,
}

/// Why a table isn't written. The room is as it was.
#[derive(Clone, Copy)]
pub enum Unwritten {
    /// The image has more bytes than the room.
    NoRoom(Image),
    /// A file can't hold the table.
    Refused(Fault),
    /// An allocation failed.
    Memory,
}

/// Returns why an error of writing prevents a table from being written.
fn reason_of(e: &write::Error) -> Unwritten
    ensures { result ≡ unwritten_reason e.now }
{
    match e {
        write::Error::TooManyEntries => Unwritten::Refused(Fault::Count),
        write::Error::NulInPath => Unwritten::Refused(Fault::Row(0)),
        write::Error::TooLarge => Unwritten::Refused(Fault::Length),
        write::Error::Io(_) => Unwritten::Memory,
    }
}

/// Puts an image into the room, and returns whether there was enough.
fn put_image(image: &[u8], room: &mut [u8]) -> bool
    ensures fits { result ≡ true → length image.now ≤ length room.old }
    ensures left { result ≡ true → room.new ≡ image.now ++ drop (length image.now) room.old }
    ensures small { result ≡ false → length room.old < length image.now }
    ensures room { result ≡ false → room.new ≡ room.old }
{
    if room.len() < image.len() {
        return false;
    }
    room[..image.len()].copy_from_slice(image);
    true
}

/// Writes a state into the room.
pub(crate) fn put_state(
    alloc: Global,
    state: State,
    options: Options,
    room: &mut [u8],
) -> Result<Image, Unwritten>
    ensures { PutsValue (contents state) options room.old room.new result }
{
    let file = File::from_state(state, PathBuf::new(alloc));
    let mut out = Plain::new(Vec::new(alloc));
    let result = file.write_to(&mut out, options);
    drop(file);
    let version = match result {
        Ok((version, _)) => version,
        Err(e) => return Err(reason_of(&e)),
    };
    let told = Image {
        bytes: out.inner.len(),
        version,
    };
    if put_image(&out.inner, room) {
        Ok(told)
    } else {
        Err(Unwritten::NoRoom(told))
    }
}

/// Returns the first error that a table has by itself, if any: of a row, or of their order.
pub(crate) fn fault_in(rows: &[Row], paths: &[u8], kind: Kind, is_sparse: bool) -> Option<Fault>
    ensures fit { result ≡ None → IsFitTable kind is_sparse paths.now rows.now }
    ensures fault { IfSome result (IsUnfitTable kind is_sparse paths.now rows.now) }
{
    if let Some(place) = first_unfit(rows, paths, kind, is_sparse) {
        return Some(unfit_fault(&rows[place], place));
    }
    if let Some(place) = first_fallen(rows, paths) {
        return Some(Fault::Order(place));
    }
    None
}

/// Returns the options with which a format requests to write, with these extensions.
pub(crate) fn options_of(format: &Format, extensions: Extensions) -> Options
    ensures { result ≡ options_with extensions format.now }
{
    Options {
        extensions,
        version: format.version,
        skip_hash: format.skip_hash,
    }
}

/// Writes a table into the room as an index without extensions.
pub fn write_table(
    alloc: Global,
    rows: &[Row],
    paths: &[u8],
    format: &Format,
    room: &mut [u8],
) -> Result<Image, Unwritten>
    ensures written { WritesTable format.now paths.now rows.now room.old room.new result }
    ensures memory { IfUnwritten result (IsFitTable format.now.kind false paths.now rows.now) }
{
    if let Some(fault) = fault_in(rows, paths, format.kind, false) {
        return Err(Unwritten::Refused(fault));
    }
    match contents_of_rows(alloc, rows, paths, format.kind) {
        Ok(state) => put_state(alloc, state, options_of(format, Extensions::None), room),
        Err(_) => Err(Unwritten::Memory),
    }
}
