//! Reading an index into a caller's table.

ghost use Rattle.std.specs.Option.{option_map};
ghost use Rattle.std.specs.Prelude.{◌≡◌, All};
ghost use Rattle.gix_index.specs.Link.{link_of};
ghost use Rattle.gix_index.specs.Record.{IsSized};
ghost use Rattle.gix_index.specs.State.{contents};
ghost use Rattle.capi_table.specs.Filling.{FillsIndex, FillsValue, TableRoomTest};
ghost use Rattle.capi_table.specs.States.{ReadsState};
ghost use Rattle.capi_table.specs.Reading.{link_id, sizes_with};

use crate::fault::{Failure, Whose};
use crate::filling::{fill, path_bytes_of, table_of_outline};
use crate::row::Row;
use gix_index::entry::FileTime;
use gix_index::extension::Link;
use gix_index::hash::{Kind, ObjectId};
use gix_index::{File, State, Version, decode, file};
use std::alloc::Global;
use std::path::PathBuf;

/// What a table of an index needs, and what else is reported.
#[derive(Clone, Copy)]
pub struct Sizes {
    /// The number of entries of the index, which is the number of rows that it needs.
    pub entries: usize,
    /// The number of bytes that its paths need.
    pub path_bytes: usize,
    /// The version of the index.
    pub version: Version,
    /// The id at the end of the shared index that the index links to, if the link wasn't followed.
    pub link: Option<ObjectId>,
}

/// Why a table isn't filled. Rows and bytes for paths are as they were.
#[derive(Drop)]
pub enum Unread {
    /// The bytes are read, and there are too few rows or bytes for paths.
    NoRoom(Sizes),
    /// The bytes aren't read.
    Failed(Failure),
}

/// Returns the id of the shared index that a link names.
pub(crate) fn linked_id(link: Option<&Link>) -> Option<ObjectId>
    ensures { result ≡ link_id (option_map (λ l. link_of l.now) link.entry) }
{
    match link {
        Some(link) => Some(link.shared_index_checksum),
        None => None,
    }
}

/// Returns the sizes of a state, with a number of entries and of bytes for paths.
pub fn sizes_of(state: &State, entries: usize, path_bytes: usize) -> Sizes
    ensures { result ≡ sizes_with (contents state.now) entries path_bytes }
{
    Sizes {
        entries,
        path_bytes,
        version: state.version(),
        link: linked_id(state.link()),
    }
}

/// Returns whether there are fewer rows or bytes for paths than a table needs.
pub(crate) fn lacks_room(sizes: &Sizes, rows: &[Row], paths: &[u8]) -> bool
    ensures { TableRoomTest sizes.now rows.now paths.now result }
{
    rows.len() < sizes.entries || paths.len() < sizes.path_bytes
}

/// Fills a state's entries into a table, if there is room. If the paths have 2^64 bytes or more together, the error is
/// that of running out of memory.
pub(crate) fn table_of(state: &State, rows: &mut [Row], paths: &mut [u8]) -> Result<Sizes, Unread>
    requires { All IsSized (contents state.now).records }
    ensures { FillsValue (contents state.now) rows.old rows.new paths.old paths.new result }
{
    let (entries, storage) = (state.entries(), state.path_backing());
    let Some(path_bytes) = path_bytes_of(entries, storage) else {
        return Err(Unread::Failed(Failure {
            error: file::init::Error::Memory,
            whose: Whose::Own,
        }));
    };
    let sizes = sizes_of(state, entries.len(), path_bytes);
    if lacks_room(&sizes, rows, paths) {
        return Err(Unread::NoRoom(sizes));
    }
    fill(entries, storage, rows, paths);
    Ok(sizes)
}

/// Returns the index of these bytes. Their trailer must be the id `expected`, if there is one, unless it is null.
pub fn index_of(
    alloc: Global,
    bytes: &[u8],
    kind: Kind,
    skip_hash: bool,
    expected: Option<ObjectId>,
) -> Result<State, file::init::Error>
    ensures { ReadsState expected skip_hash kind bytes.now result }
{
    let path = PathBuf::new(alloc);
    let time = FileTime::EPOCH;
    let options = decode::Options {
        expected_checksum: expected,
        ..decode::Options::default()
    };
    match File::decode(alloc, bytes, path, kind, skip_hash, time, options) {
        Ok(file) => Ok(file.into_parts().0),
        Err(e) => Err(e),
    }
}

/// Reads bytes into a table. No entry is stored anywhere else in the meantime.
pub fn read_table(
    alloc: Global,
    bytes: &[u8],
    kind: Kind,
    skip_hash: bool,
    rows: &mut [Row],
    paths: &mut [u8],
) -> Result<Sizes, Unread>
    ensures { FillsIndex skip_hash kind bytes.now rows.old rows.new paths.old paths.new result }
{
    let (time, options) = (FileTime::EPOCH, decode::Options::default());
    match File::outline(alloc, bytes, kind, skip_hash, time, options) {
        Ok(outline) => table_of_outline(&outline, rows, paths),
        Err(error) => Err(Unread::Failed(Failure {
            error,
            whose: Whose::Own,
        })),
    }
}
