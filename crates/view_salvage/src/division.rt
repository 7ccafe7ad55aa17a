//! Divides a complete file into parts.

ghost use Rattle.std.specs.Prelude.{◌≡◌, ◌≤◌, ◌<◌, ◌+◌, ◌-◌, ◌++◌, [], ℕ, List, length, Some, Ok, Err, IfOk, false};
ghost use Rattle.gix_index.specs.Header.{count_of, header_of};
ghost use Rattle.gix_index.specs.HeaderErrors.{header_fault};
ghost use Rattle.gix_index.specs.Id.{id_len};
ghost use Rattle.gix_index.specs.Kind.{Kind as KindType};
ghost use Rattle.gix_index.specs.Walk.{NoItem, left_of};
ghost use Rattle.view_salvage.specs.Division.{IsCrowded, IsDivisionOf, NoEntryBehind, unread_piece};
ghost use Rattle.view_salvage.specs.DivisionSteps.{EndsDivision, EndsIn, GoesOn, WalksOn};
ghost use Rattle.view_layout.specs.Piece.{LieBetween, laid};
ghost use Rattle.view_salvage.specs.Spelling.{Spelling};

use crate::front::{Front, HEADER_LEN, read_front};
use crate::items::{Walked, walk_items};
use gix_index::Version;
use gix_index::decode::entries::{
    FirstEntries, entries_in, estimate_path_storage_requirements_in_bytes, max_entries_possible,
};
use gix_index::decode::entry::EntryList;
use gix_index::decode::{Error, header};
use gix_index::extension::end_of_index_entry;
use gix_index::file::init::check;
use gix_index::hash::Kind;
use std::alloc::{AllocError, Global};
use view_layout::part::{Part, What, push_part, push_some};

/// The parts of a file, the entries that were read, and the first error.
#[derive(Drop)]
pub struct Division {
    /// The parts, consecutive from the first byte to the last. If there is an error, the last part begins there.
    pub parts: Vec<Part>,
    /// The readable entries, in the order of the file.
    pub entries: EntryList,
    /// The first error by its offset in the file, if there is one.
    pub fault: Option<Error>,
}

/// The parts up to the end of a file, and the first error.
#[derive(Drop)]
struct Ending {
    parts: Vec<Part>,
    fault: Option<Error>,
}

/// Returns the parts and one part with all bytes from an offset on, which are unread because of this error.
fn unread_from(
    mut parts: Vec<Part>,
    offset: usize,
    behind: &[u8],
    fault: Error,
) -> Result<Ending, AllocError>
    ensures parts { IfOk result
        (λ e. e.parts.items ≡ parts.items ++ laid offset (unread_piece behind.now)) }
    ensures fault { IfOk result (λ e. e.fault ≡ Some fault) }
{
    push_part(&mut parts, offset, behind.len(), What::Unread)?;
    Ok(Ending {
        parts,
        fault: Some(fault),
    })
}

/// Returns the parts, then what is left over after extensions, from an offset on, and then the trailer. The trailer is
/// unread if it isn't the digest.
fn with_ending(
    kind: Kind,
    bytes: &[u8],
    tail: &[u8],
    trailer: &[u8],
    offset: usize,
    mut parts: Vec<Part>,
) -> Result<Ending, AllocError>
    requires room { offset + length tail.now ≤ 0xffffffffffffffff }
    requires ended { NoItem tail.now }
    requires none_left { left_of tail.now ≡ 0 }
    ensures { IfOk result (EndsIn kind bytes.now tail.now trailer.now offset parts.items) }
{
    push_some(&mut parts, offset, tail.len(), What::LeftOver)?;
    let start = offset + tail.len();
    if let Err(fault) = check(bytes, None, kind, false) {
        return unread_from(parts, start, trailer, fault);
    }
    push_part(&mut parts, start, trailer.len(), What::Trailer)?;
    Ok(Ending { parts, fault: None })
}

/// Returns the parts, followed by those of extensions and the trailer. The first of these begins at an offset.
fn walk_ending(
    alloc: Global,
    kind: Kind,
    bytes: &[u8],
    after: &[u8],
    offset: usize,
    parts: Vec<Part>,
) -> Result<Ending, AllocError>
    requires room { offset + length after.now ≤ 0xffffffffffffffff }
    requires long { id_len kind ≤ length after.now }
    ensures { IfOk result (WalksOn kind bytes.now after.now offset parts.items) }
{
    let expected = kind.len_in_bytes();
    let (extensions, trailer) = after.split_at(after.len() - expected);
    let Walked {
        parts,
        end,
        left,
        fault,
    } = walk_items(alloc, kind, offset, extensions, parts)?;
    let (_, unread) = after.split_at(end - offset);
    if let Some(fault) = fault {
        return unread_from(parts, end, unread, Error::Extension(fault));
    }
    if left != 0 {
        let actual = left + expected;
        let fault = Error::UnexpectedTrailerLength { expected, actual };
        return unread_from(parts, end, unread, fault);
    }
    let (_, tail) = extensions.split_at(end - offset);
    with_ending(kind, bytes, tail, trailer, end, parts)
}

/// Returns whether the header declares more entries than a file of this length can hold.
fn is_crowded(kind: Kind, version: Version, declared: u32, bytes: &[u8]) -> bool
    ensures { declared ≡ count_of bytes.now → IsCrowded kind version bytes.now result }
{
    let offset = end_of_index_entry::decode(bytes, kind);
    declared as usize > max_entries_possible(bytes.len(), offset, kind, version)
}

/// The version and the number of entries that the header of a file declares, and the number of entries that were read.
#[derive(Clone, Copy)]
struct Found {
    version: Version,
    declared: u32,
    read: usize,
}

/// Returns the parts, followed by those after the entries. `rest` is what follows the entries in the file.
fn behind_entries(
    alloc: Global,
    kind: Kind,
    found: Found,
    bytes: &[u8],
    after: &[u8],
    parts: Vec<Part>,
) -> Result<Ending, AllocError>
    requires declared { found.declared ≡ count_of bytes.now }
    requires read { found.read ≤ found.declared }
    ensures { IfOk result (λ e. (spellings : List Spelling) → length spellings ≡ found.read
        → (found.read < found.declared → NoEntryBehind found.version kind spellings after.now)
        → GoesOn kind found.version bytes.now spellings after.now
        (length bytes.now - length after.now) parts.items e) }
{
    let offset = bytes.len().saturating_sub(after.len());
    let Found {
        version,
        declared,
        read,
    } = found;
    if read < declared as usize {
        let index = read as u32;
        return unread_from(parts, offset, after, Error::Entry { index });
    }
    if is_crowded(kind, version, declared, bytes) {
        let fault = header::Error::Corrupt(
            "Declared entry count exceeds possible entries for file size",
        );
        return unread_from(parts, offset, after, Error::Header(fault));
    }
    let expected = kind.len_in_bytes();
    let actual = after.len();
    if actual < expected {
        let fault = Error::UnexpectedTrailerLength { expected, actual };
        return unread_from(parts, offset, after, fault);
    }
    walk_ending(alloc, kind, bytes, after, offset, parts)
}

/// Returns the parts of any file of this length whose header has this error. All bytes are one part. The result is that
/// of [`divide`].
pub fn headless(alloc: Global, len: usize, fault: header::Error) -> Result<Division, AllocError>
    ensures { IfOk result (λ d. (kind : KindType) (bytes : List ℕ) → len ≡ length bytes
        → header_of kind bytes ≡ Err (header_fault fault) → IsDivisionOf kind bytes d) }
{
    let mut parts = Vec::new(alloc);
    push_part(&mut parts, 0, len, What::Unread)?;
    let entries = EntryList::new(alloc);
    let fault = Some(Error::Header(fault));
    Ok(Division {
        parts,
        entries,
        fault,
    })
}

/// Divides a file with this hash algorithm into parts. If the file can be read as an index, they are all its parts.
/// Else they are the parts up to the first error by offset, and the rest as one part.
///
/// An error of the header is at the begin of the file, and one of the trailer at the begin of the trailer. An
/// impossible number of entries is an error at the first missing entry. The digest is compared, unless the trailer is
/// null. A link to a shared index isn't followed.
///
/// # Errors
///
/// The only error is an allocation failure.
pub fn divide(alloc: Global, kind: Kind, bytes: &[u8]) -> Result<Division, AllocError>
    ensures divided { IfOk result (IsDivisionOf kind bytes.now) }
    ensures covered { IfOk result (λ d. LieBetween 0 d.parts.items (length bytes.now)) }
{
    let (version, declared, _) = match header::decode(bytes, kind) {
        Ok(found) => found,
        Err(e) => return headless(alloc, bytes.len(), e),
    };
    let Front {
        parts,
        entries,
        rest,
    } = read_front(alloc, version, kind, declared, bytes)?;
    let read = entries.as_slice().len();
    let found = Found {
        version,
        declared,
        read,
    };
    let Ending { parts, fault } = behind_entries(alloc, kind, found, bytes, rest, parts)?;
    Ok(Division {
        parts,
        entries,
        fault,
    })
}

/// Returns an empty list with capacity for the declared number of entries. It has no capacity if the file can't hold
/// them.
fn with_room(
    alloc: Global,
    version: Version,
    kind: Kind,
    count: u32,
    bytes: &[u8],
) -> Result<FirstEntries, AllocError>
    ensures { IfOk result (λ first. (first.list ≡ record { records = []; storage = [] })
        × (first.sparse ≡ false)) }
{
    let offset = end_of_index_entry::decode(bytes, kind);
    let len = bytes.len();
    if count as usize > max_entries_possible(len, offset, kind, version) {
        return Ok(FirstEntries {
            list: EntryList::new(alloc),
            sparse: false,
        });
    }
    let paths = estimate_path_storage_requirements_in_bytes(count, len, offset, kind, version);
    let list = EntryList::with_capacity(alloc, count as usize, paths)?;
    Ok(FirstEntries {
        list,
        sparse: false,
    })
}

/// Returns the entries and the first error that [`divide`] finds after this header, and its parts after the entries.
pub(crate) fn divide_ending(
    alloc: Global,
    kind: Kind,
    version: Version,
    declared: u32,
    bytes: &[u8],
) -> Result<Division, AllocError>
    requires header { header_of kind bytes.now ≡ Ok version }
    requires declared { declared ≡ count_of bytes.now }
    ensures { IfOk result
        (λ d. EndsDivision kind bytes.now d.entries.records d.parts.items d.fault) }
{
    let mut first = with_room(alloc, version, kind, declared, bytes)?;
    let (_, behind) = bytes.split_at(HEADER_LEN);
    let rest = entries_in(version, kind, declared, &mut first, behind)?;
    let entries = first.list;
    let found = Found {
        version,
        declared,
        read: entries.len(),
    };
    let none = Vec::new(alloc);
    let Ending { parts, fault } = behind_entries(alloc, kind, found, bytes, rest, none)?;
    Ok(Division {
        parts,
        entries,
        fault,
    })
}
