//! Reading a large index in windows.

ghost use Rattle.std.specs.Prelude.{◌≡◌, ◌≤◌, ◌+◌, All, [], length, vec_len, IfNone, IfOk, IfSome, false, true};
ghost use Rattle.entry_list.specs.Record.{AreBytes, has_directory};
ghost use Rattle.file_place.specs.Sources.{KeepsFile};
ghost use Rattle.index_parts.specs.Id.{id_kind};
ghost use Rattle.file_windows.specs.Answers.{IsAllLeft, IsEndingBy, IsWindowed};
ghost use Rattle.file_windows.specs.Entries.{FitPlan, ReadsEntries, Scans};
ghost use Rattle.file_windows.specs.Marked.{Closes, EndsAsMarker, IsIntactBehind, IsMarkedAs, LacksMarker};
ghost use Rattle.file_windows.specs.Windowed.{IfGiven};

use crate::ReadOptions;
use crate::extensions::{Held, Place, join_held, pass_extensions, read_rest};
use crate::plan::{KEPT_LEN, Plan, WINDOW_LEN, hash_piece};
use entry_decode::entries::{FirstEntries, Read as ReadEntries, entries_in};
use entry_list::list::EntryList;
use entry_list::sizes::HEADER_LEN;
use file_place::folder::Source;
use file_place::pieces::{fill, remove_front};
use index_decode::decode::{Declared, ReadAs, declared_by, read_ending};
use index_decode::trailer;
use index_extensions::end_of_index_entry;
use index_model::Parts;
use index_parts::hash::{Hasher, Kind, ObjectId};
use index_parts::util::from_be_u32;
use std::alloc::{AllocError, Global};
use std::io;

/// An index that was read in windows.
#[derive(Drop)]
pub struct WindowedIndex {
    /// The parts of the index.
    pub parts: Parts,
    /// The id in the trailer, or `None` if it is null.
    pub checksum: Option<ObjectId>,
    /// The bytes after the entries: the extensions and the trailer. Extensions that the library doesn't know are left
    /// out if the caller allowed it.
    pub ending: Vec<u8>,
}

/// Decodes the complete entries in the window from an index on. Hashes and removes most of what was decoded. Returns
/// the index up to which the window was decoded.
fn take_entries(
    plan: Plan,
    hasher: &mut Hasher,
    window: &mut Vec<u8>,
    start: usize,
    first: &mut FirstEntries,
) -> Result<usize, AllocError>
    requires first { FitPlan plan first.old }
    requires start { start ≤ vec_len window.old }
    ensures { Scans plan start hasher.old hasher.new window.old window.new first.old first.new
        result }
{
    let rest = entries_in(plan.version, plan.kind, plan.count, first, &window[start..])?;
    let end = window.len().saturating_sub(rest.len());
    let done = end.saturating_sub(KEPT_LEN);
    hash_piece(plan, hasher, &window[..done]);
    remove_front(window, done);
    Ok(end - done)
}

/// Returns whether the plan has no end marker, or its offset is followed by this number of bytes in the window and in
/// the rest of the file.
fn is_named(plan: Plan, at_hand: usize, left: u64) -> bool
    ensures { result ≡ true → IfSome plan.offset (λ place. place + at_hand + left ≡ plan.len) }
{
    let Some(offset) = plan.offset else {
        return true;
    };
    let Some(behind) = plan.len.checked_sub(offset) else {
        return false;
    };
    (at_hand as u64).checked_add(left) == Some(behind as u64)
}

/// Reads all entries after the header. Returns the index up to which the window was decoded, and the number of bytes
/// that weren't read yet. Returns `None` if an entry is missing, if the file is longer than its status reported, or if
/// the end marker of the plan names another offset.
fn read_entries<S: Source>(
    file: &mut S,
    plan: Plan,
    hasher: &mut Hasher,
    window: &mut Vec<u8>,
    first: &mut FirstEntries,
    mut left: u64,
) -> io::Result<Option<(usize, u64)>>
    requires first { FitPlan plan first.old }
    requires header { 12 ≤ vec_len window.old }
    ensures { ReadsEntries S.Source plan left file.old file.new hasher.old hasher.new window.old
        window.new first.old first.new result }
{
    let mut start = HEADER_LEN;
    'windows: loop {
        start = take_entries(plan, hasher, window, start, first)?;
        if first.list.len() == plan.count as usize {
            if !is_named(plan, window.len() - start, left) {
                return Ok(None);
            }
            return Ok(Some((start, left)));
        }
        let wanted = window.len().saturating_mul(2).max(WINDOW_LEN);
        let came = fill(file, window, wanted)?;
        if came == 0 || came as u64 > left {
            return Ok(None);
        }
        left -= came as u64;
    }
}

/// The content of an end marker, which isn't validated.
#[derive(Drop)]
struct Marker<'a> {
    /// The offset that it names.
    place: usize,
    /// The digest in it.
    hash: &'a [u8],
}

/// Returns the content of the end marker, if these bytes end with one and the trailer of a SHA-1 file.
fn marker_in(tail: &[u8]) -> Option<Marker<'_>>
    ensures some { IfSome result (λ m. EndsAsMarker tail.now m.place m.hash.now) }
    ensures none { IfNone result (52 ≤ length tail.now → LacksMarker tail.now) }
{
    if tail.len() < KEPT_LEN {
        return None;
    }
    let (_, end) = tail.split_at(tail.len() - KEPT_LEN);
    let (start, rest) = end.split_at(8);
    if !start.starts_with(b"EOIE\x00\x00\x00\x18") {
        return None;
    }
    let (offset, rest) = rest.split_at(4);
    let (hash, _) = rest.split_at(20);
    Some(Marker {
        place: from_be_u32(offset) as usize,
        hash,
    })
}

/// Returns the offset that an end marker names, if these are the last bytes of a file that has one.
pub fn place_in(tail: &[u8]) -> Option<usize> {
    Some(marker_in(tail)?.place)
}

/// Returns true only if there is no end marker before the trailer. May return false without a marker.
fn lacks_marker(tail: &[u8]) -> bool
    ensures { result ≡ true → LacksMarker tail.now }
{
    match marker_in(tail) {
        Some(_) => false,
        None => tail.len() >= KEPT_LEN,
    }
}

/// Returns true only if these last bytes are a trailer and an end marker that names offset `place`. `heads` hashed the
/// heads of the extensions before them. These begin at that offset, and there must be at least one.
fn is_closed(plan: Plan, place: usize, heads: Hasher, end: &[u8]) -> bool
    ensures { result ≡ true → Closes plan place heads end.now }
{
    if plan.kind != Kind::Sha1 || end.len() != KEPT_LEN {
        return false;
    }
    if place < HEADER_LEN || plan.len.saturating_sub(KEPT_LEN) <= place {
        return false;
    }
    let Some(marker) = marker_in(end) else {
        return false;
    };
    if marker.place != place {
        return false;
    }
    heads.finalize().as_bytes() == marker.hash
}

/// Returns true only if the end marker names the offset of the plan, or neither has one. May return false although it
/// is so. `heads` hashed the heads of the extensions that were passed before index `start` of the tail.
fn is_marked(plan: Plan, heads: Hasher, tail: &[u8], start: usize) -> bool
    requires inside { start ≤ length tail.now }
    ensures { result ≡ true → IsMarkedAs plan tail.now start heads }
{
    let Some(offset) = plan.offset else {
        return lacks_marker(tail);
    };
    if !plan.keeps_ending {
        return is_closed(plan, offset, heads, &tail[start..]);
    }
    let skipped = plan.len.saturating_sub(tail.len());
    match end_of_index_entry::decode_behind(skipped, tail, plan.kind) {
        Some(found) => found == offset,
        None => false,
    }
}

/// Returns true only if the trailer is the digest or needn't be compared. `hasher` took all bytes before the tail, if
/// they were to be hashed.
fn is_intact(plan: Plan, mut hasher: Hasher, tail: &[u8], skip_hash: bool) -> bool
    ensures { result ≡ true → IsIntactBehind plan hasher tail.now skip_hash }
{
    let len = plan.kind.len_in_bytes();
    if tail.len() < len {
        return false;
    }
    let (body, trailer) = tail.split_at(tail.len() - len);
    if skip_hash {
        return true;
    }
    let Some(expected) = trailer::checksum(plan.kind, trailer) else {
        return true;
    };
    hash_piece(plan, &mut hasher, body);
    plan.is_hashed && hasher.finalize() == expected
}

/// Returns true only if the end marker is that of the plan, and the trailer is the digest or needn't be compared. One
/// hasher took all bytes before the tail, if they were to be hashed. The other took the heads of the extensions that
/// were passed before an index of the tail.
fn is_sound(
    plan: Plan,
    hasher: Hasher,
    heads: Hasher,
    tail: &[u8],
    start: usize,
    skip_hash: bool,
) -> bool
    requires inside { start ≤ length tail.now }
    ensures intact { result ≡ true → IsIntactBehind plan hasher tail.now skip_hash }
    ensures marker { result ≡ true → IsMarkedAs plan tail.now start heads }
    ensures are_bytes { AreBytes tail.now }
{
    is_marked(plan, heads, tail, start) && is_intact(plan, hasher, tail, skip_hash)
}

/// Returns the index for entries that were read and the bytes held of what follows them. Returns `None` unless
/// everything is valid.
fn ending_of(
    alloc: Global,
    plan: Plan,
    first: FirstEntries,
    ending: Vec<u8>,
    reading: ReadOptions,
) -> Option<WindowedIndex>
    requires ids { All (λ r. id_kind r.id ≡ plan.kind) first.list.records }
    requires sparse { first.sparse ≡ has_directory first.list.records }
    ensures { IfSome result (IsEndingBy plan reading first.list.records ending.items) }
{
    let read = ReadEntries {
        list: first.list,
        sparse: first.sparse,
        rest: &ending,
    };
    let read_as = ReadAs {
        timestamp: reading.timestamp,
        object_hash: plan.kind,
        version: plan.version,
        options: reading.options,
    };
    match read_ending(alloc, read, read_as) {
        Ok((parts, checksum)) => Some(WindowedIndex {
            parts,
            checksum,
            ending,
        }),
        Err(_) => None,
    }
}

/// Returns an empty list with capacity for the declared entries.
fn room_for(alloc: Global, declared: Declared<'_>) -> Result<FirstEntries, AllocError>
    ensures { IfOk result (λ first. (first.list.records ≡ []) × (first.sparse ≡ false)) }
{
    let list = EntryList::with_capacity(alloc, declared.count as usize, declared.paths)?;
    Ok(FirstEntries {
        list,
        sparse: false,
    })
}

/// Returns the index that a file with this length contains. Returns `None` if it isn't a valid index, or if the end
/// marker and the offset don't match: the marker must name the offset, or neither is there. The plan must require
/// hashing if the digest has to be compared.
pub fn read_windows<S: Source>(
    alloc: Global,
    file: &mut S,
    len: u64,
    is_hashed: bool,
    offset: Option<usize>,
    reading: ReadOptions,
    keeps_ending: bool,
) -> io::Result<Option<WindowedIndex>>
    ensures read { IfGiven result
        (IsWindowed reading keeps_ending (IsAllLeft (S.remaining file.old))) }
    ensures left { KeepsFile S.Source file.old file.new }
{
    let kind = reading.object_hash;
    let mut window = Vec::with_capacity(alloc, WINDOW_LEN)?;
    let came = fill(file, &mut window, WINDOW_LEN)?;
    if came as u64 > len {
        return Ok(None);
    }
    let left = len - came as u64;
    let Ok(declared) = declared_by(&window, len as usize, offset, kind, reading.options) else {
        return Ok(None);
    };
    let plan = Plan {
        version: declared.version,
        kind,
        count: declared.count,
        is_hashed,
        len: len as usize,
        offset,
        keeps_ending,
    };
    let mut hasher = Hasher::new(kind);
    let mut first = room_for(alloc, declared)?;
    let Some((start, left)) = read_entries(file, plan, &mut hasher, &mut window, &mut first, left)?
    else {
        return Ok(None);
    };
    let mut held = Held::none(alloc);
    let place = Place { start, left };
    let Some(place) = pass_extensions(file, plan, &mut hasher, &mut window, &mut held, place)?
    else {
        return Ok(None);
    };
    let Held { bytes, heads } = held;
    if !read_rest(file, &mut window, &bytes, place.left)?
        || !is_sound(plan, hasher, heads, &window, place.start, reading.skip_hash)
    {
        return Ok(None);
    }
    let ending = join_held(bytes, window, place.start)?;
    Ok(ending_of(alloc, plan, first, ending, reading))
}
