//! Errors as numbers and texts.

ghost use Rattle.std.specs.Prelude.{◌≡◌, ◌≤◌, IfSome};
ghost use Rattle.index_c.specs.Numbers.{HasNumber, IsNumbered, extension_number, header_number, read_status, table_number, table_place};
ghost use Rattle.index_c.specs.Summaries.{HasText};
ghost use Rattle.capi_table.specs.Faults.{decode_fault};

use crate::status::{MEMORY, REFUSED};
use capi_table::write::Fault as TableFault;
use gix_index::decode::{self, header};
use gix_index::{extension, file};
use std::alloc::Global;
use std::fmt;

/// The bytes don't begin with the header of an index, or the header declares more entries than they can hold.
pub const HEADER: u32 = 1;
/// The version isn't 2, 3 or 4.
pub const VERSION: u32 = 2;
/// A limit on memory is exceeded. Calls set none.
pub const LIMIT: u32 = 3;
/// The entry at `fault_place` can't be read.
pub const ENTRY: u32 = 4;
/// A mandatory extension isn't supported.
pub const EXTENSION: u32 = 5;
/// The link to a shared index is invalid, or the two indexes don't match.
pub const LINK: u32 = 6;
/// The number of bytes after all entries and extensions isn't the length of the trailer.
pub const TRAILER: u32 = 7;
/// The checksum isn't the trailer.
pub const DIGEST: u32 = 8;
/// A file can't be opened or read.
pub const DISK: u32 = 9;
/// The entry at `fault_place` isn't above the one before it, by path, then by stage. Only calls that check, write or
/// update, or give trees, return it.
pub const ORDER: u32 = 10;
/// The cache tree extension (TREE) is inconsistent, or a node of it counts more entries than there are. Only a check
/// returns it.
pub const CACHED_TREE: u32 = 11;
/// The row at `fault_place` can't be written or staged, or can't be in a tree. The reason is neither its mode nor a
/// name in its path. Only calls that write or update, or give trees, return it.
pub const ROW: u32 = 12;
/// There are more entries than the 4294967295 that a file can count, or the 2147483647 that trees can count. Only calls
/// that write or update, or give trees, return it.
pub const COUNT: u32 = 13;
/// The file would have more than the 4294967295 bytes that its offsets can reach. Only calls that write or update
/// return it.
pub const LENGTH: u32 = 14;
/// The mode of the row at `fault_place` is none of git's. Only calls that write or update, or give trees, return it.
pub const MODE: u32 = 15;
/// A name in the path of the row at `fault_place` is one that git doesn't allow in a path. Only calls that update or
/// give trees return it.
pub const NAME: u32 = 16;
/// The row at `fault_place` is in conflict. Only a call that gives trees returns it.
pub const UNMERGED: u32 = 17;
/// The path of the row at `fault_place` is below that of another row, or in a directory that another row represents.
/// Only a call that gives trees returns it.
pub const BELOW: u32 = 18;

/// The number of an error, and the index that it names, or 0.
#[derive(Clone, Copy)]
pub struct Numbered {
    pub number: u32,
    pub place: usize,
}

/// Returns the number of a header's error.
fn number_of_header(e: &header::Error) -> u32
    ensures { result ≡ header_number e.now }
{
    match e {
        header::Error::Corrupt(_) => HEADER,
        header::Error::UnsupportedVersion(_) => VERSION,
    }
}

/// Returns the number of an extension's error.
fn number_of_extension(e: &extension::decode::Error) -> u32
    ensures { result ≡ extension_number e.now }
{
    match e {
        extension::decode::Error::MandatoryUnimplemented { .. } => EXTENSION,
        extension::decode::Error::Link(_) => LINK,
    }
}

/// Returns the number of an error of bytes, and its index.
fn number_of_bytes(e: &decode::Error) -> Numbered
    ensures { IfSome (decode_fault e.now) (λ fault. HasNumber fault result.number result.place) }
{
    let number = match e {
        decode::Error::Header(e) => number_of_header(e),
        decode::Error::Entry { index } => {
            return Numbered {
                number: ENTRY,
                place: *index as usize,
            };
        }
        decode::Error::Extension(e) => number_of_extension(e),
        decode::Error::UnexpectedTrailerLength { .. } => TRAILER,
        decode::Error::Verify { .. } => DIGEST,
        decode::Error::OutOfMemory => LIMIT,
        decode::Error::Hasher | decode::Error::Memory => 0,
    };
    Numbered { number, place: 0 }
}

/// Returns the number of an error of reading a file, and its index.
pub fn number_of_error(e: &file::init::Error) -> Numbered
    ensures { IsNumbered e.now result.number result.place }
{
    let number = match e {
        file::init::Error::Decode(e) => return number_of_bytes(e),
        file::init::Error::Io(_) => DISK,
        file::init::Error::LinkExtension(_) => LINK,
        file::init::Error::Memory => 0,
    };
    Numbered { number, place: 0 }
}

/// Returns the status of an error of reading.
pub fn status_of_error(e: &file::init::Error) -> u32
    ensures told { result ≡ read_status e.now }
    ensures most { result ≤ MEMORY }
{
    match e {
        file::init::Error::Memory => MEMORY,
        _ => REFUSED,
    }
}

/// Returns the number of an error of a table, and its index.
pub fn number_of_table(fault: TableFault) -> Numbered
    ensures number { result.number ≡ table_number fault }
    ensures place { result.place ≡ table_place fault }
{
    let (number, place) = match fault {
        TableFault::Row(place) => (ROW, place),
        TableFault::Mode(place) => (MODE, place),
        TableFault::Order(place) => (ORDER, place),
        TableFault::Name(place) => (NAME, place),
        TableFault::Unmerged(place) => (UNMERGED, place),
        TableFault::Below(place) => (BELOW, place),
        TableFault::Count => (COUNT, 0),
        TableFault::Length => (LENGTH, 0),
    };
    Numbered { number, place }
}

/// Writes the beginning of an error's text, as far as there is room, and returns how many bytes that is. If memory runs
/// out while the text is made, it writes nothing and returns 0.
pub fn put_fault<E: fmt::Display>(alloc: Global, e: &E, room: &mut [u8]) -> usize
    ensures { HasText result room.old room.new }
{
    let Ok(text) = format!(in alloc; "{e}") else {
        return 0;
    };
    let len = text.len().min(room.len());
    room[..len].copy_from_slice(&text.as_bytes()[..len]);
    len
}
