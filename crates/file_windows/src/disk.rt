//! Reading all bytes of a file with their digest; or its first error, if its first bytes aren't a header.

ghost use Rattle.std.specs.Prelude.{◌≡◌, ◌≤◌, ◌+◌, ◌-◌, ◌++◌, [], false, length, true, vec_len, IfErr};
ghost use Rattle.std.specs.Prelude.{IfOk, IfSome, OnOk};
ghost use Rattle.file_place.specs.Sizes.{IsOwnFault, max_len};
ghost use Rattle.file_place.specs.Sources.{ReturnsToStart};
ghost use Rattle.file_place.specs.World.{whole_of};
ghost use Rattle.index_model.specs.declared.error.Error.TheVariants.{Header};
ghost use Rattle.index_parts.specs.Id.{id_len};
ghost use Rattle.file_windows.specs.Answers.{IsAllOf};
ghost use Rattle.file_windows.specs.Counted.{CountsRest, IsCountedFile};
ghost use Rattle.file_windows.specs.Intact.{digest_id, ends_in_null};
ghost use Rattle.file_windows.specs.ReadWhole.{EndsInNull, HashesToEnd, IsComparedFirst, IsReadWhole};
ghost use Rattle.file_windows.specs.ReadWhole.{HoldsFew, IsFaultBehind, IsRefusalBehind, IsUnchecked};
ghost use Rattle.file_windows.specs.ReadWhole.{LacksHeader, PassesFront, ReadsPieces};

use crate::plan::WINDOW_LEN;
use entry_list::sizes::HEADER_LEN;
use file_place::folder::Source;
use file_place::pieces::{append_piece, fill, remove_front};
use file_place::whole::{MAX_LEN, too_long};
use index_decode::decode::header;
use index_decode::trailer;
use index_model::decode::Error;
use index_parts::hash::{Hasher, Kind, ObjectId};
use std::alloc::Global;
use std::io;

/// The result of reading a complete file.
#[derive(Drop)]
pub enum WholeFile {
    /// All bytes of the file. The digest is that of all bytes except the last, the length of an id. It is `None` if it
    /// wasn't computed.
    Held(Vec<u8>, Option<ObjectId>),
    /// The first error of a file whose header has an error. Its bytes aren't in memory.
    Refused(Error),
}

/// The result of reading or counting the bytes of a file.
#[derive(Drop)]
pub enum CountedFile {
    /// All bytes of the file.
    Held(Vec<u8>),
    /// The number of bytes of a file whose header has this error. They aren't in memory.
    Headless(u64, header::Error),
}

/// The state after all pieces of a file were read.
#[derive(Drop)]
struct Pieces {
    /// The number of bytes, including those before the first piece.
    len: u64,
    /// The hasher of all bytes except the last, the length of an id. It is unused if they aren't hashed.
    hasher: Hasher,
}

/// Returns whether the bytes end with an id of the hash algorithm that is all zeros.
pub(crate) fn ends_in_null(kind: Kind, bytes: &[u8]) -> bool
    ensures { result ≡ ends_in_null kind bytes.now }
{
    let len = kind.len_in_bytes();
    bytes.len() >= len && trailer::checksum(kind, &bytes[bytes.len() - len..]).is_none()
}

/// Returns whether the last bytes of a file, the length of an id, are all zero. Returns false if it isn't a regular
/// file, such as a pipe, which can be read only in order. Afterwards the file is at its start, and `room` is empty.
fn has_null_trailer<S: Source>(file: &mut S, kind: Kind, room: &mut Vec<u8>) -> io::Result<bool>
    requires room { room.old.items ≡ [] }
    requires start { S.remaining file.old ≡ whole_of (S.stored file.old) }
    ensures room { OnOk result (room.new.items ≡ []) }
    ensures left { ReturnsToStart S.Source file.old file.new result }
    ensures null { IfOk result (λ is. is ≡ true → EndsInNull kind (S.stored file.old)) }
{
    let status = file.status()?;
    if !status.is_plain {
        return Ok(false);
    }
    let len = kind.len_in_bytes();
    file.go_to(status.len.saturating_sub(len as u64))?;
    fill(file, room, len)?;
    let is_null = room.len() == len && ends_in_null(kind, room);
    room.clear();
    file.go_to(0)?;
    Ok(is_null)
}

/// Returns whether the digest of a file may have to be compared with its trailer. Returns false if the caller skips
/// that, or if the last bytes are null. Afterwards the file is at its start, and `room` is empty.
fn may_be_compared<S: Source>(
    file: &mut S,
    kind: Kind,
    skip_hash: bool,
    room: &mut Vec<u8>,
) -> io::Result<bool>
    requires room { room.old.items ≡ [] }
    requires start { S.remaining file.old ≡ whole_of (S.stored file.old) }
    ensures room { OnOk result (room.new.items ≡ []) }
    ensures left { ReturnsToStart S.Source file.old file.new result }
    ensures wanted { IfOk result (λ is. is ≡ true → skip_hash ≡ false) }
    ensures unchecked { IfOk result
        (λ is. is ≡ false → IsUnchecked skip_hash kind (S.stored file.old)) }
{
    if skip_hash {
        return Ok(false);
    }
    Ok(!has_null_trailer(file, kind, room)?)
}

/// Hashes the bytes from index `passed` on except the last, the length of an id, if `is_hashed`. Removes the hashed and
/// earlier bytes unless `is_held`. Returns the index up to which the bytes in `bytes` were passed.
fn pass_front(
    hasher: &mut Hasher,
    kind: Kind,
    is_hashed: bool,
    is_held: bool,
    bytes: &mut Vec<u8>,
    passed: usize,
) -> usize
    requires { passed ≤ vec_len bytes.old - id_len kind }
    ensures { PassesFront kind is_hashed is_held passed hasher.old hasher.new bytes.old.items
        bytes.new.items result }
{
    let end = bytes.len().saturating_sub(kind.len_in_bytes());
    if is_hashed {
        hasher.update(&bytes[passed..end]);
    }
    if is_held {
        return end;
    }
    remove_front(bytes, end);
    0
}

/// Reads a file to its end in pieces, after bytes that were read before, and counts all of them. Each piece is hashed
/// while it is in memory, if requested. The last bytes, the length of an id, aren't hashed. Only these last bytes stay
/// in memory, unless all are held.
fn read_pieces<S: Source>(
    file: &mut S,
    kind: Kind,
    is_hashed: bool,
    is_held: bool,
    bytes: &mut Vec<u8>,
) -> io::Result<Pieces>
    ensures { ReadsPieces S.Source file.old file.new kind is_hashed is_held bytes.old.items
        bytes.new.items result }
{
    let mut hasher = Hasher::new(kind);
    let mut passed = 0;
    let mut len = bytes.len() as u64;
    'pieces: loop {
        let count = append_piece(file, bytes)?;
        len += count as u64;
        if len > MAX_LEN {
            return Err(too_long());
        }
        passed = pass_front(&mut hasher, kind, is_hashed, is_held, bytes, passed);
        if count == 0 {
            return Ok(Pieces { len, hasher });
        }
    }
}

/// Reads a file to its end, after bytes that were read before. The digest is that of all bytes except the last, the
/// length of an id. Only these last bytes stay in memory, unless all are held. Fails if there are more than [`MAX_LEN`]
/// bytes.
pub fn read_hashed<S: Source>(
    file: &mut S,
    kind: Kind,
    is_held: bool,
    bytes: &mut Vec<u8>,
) -> io::Result<ObjectId>
    ensures { HashesToEnd S.Source file.old file.new kind is_held bytes.old.items bytes.new.items
        result }
{
    let pieces = read_pieces(file, kind, true, is_held, bytes)?;
    Ok(pieces.hasher.finalize())
}

/// Reads a file to its end, after bytes that were read before. The digest is computed if requested.
fn read_whole<S: Source>(
    file: &mut S,
    kind: Kind,
    is_hashed: bool,
    bytes: &mut Vec<u8>,
) -> io::Result<Option<ObjectId>>
    ensures digest { IfOk result
        (λ digest. IfSome digest (λ id. id ≡ digest_id kind bytes.new.items)) }
    ensures whole { OnOk result
        (IfSome (S.remaining file.old) (λ left. bytes.new.items ≡ bytes.old.items ++ left)) }
    ensures bound { OnOk result (length bytes.new.items ≤ max_len) }
    ensures fault { S.works file.old ≡ true
        → IfErr result (IsFaultBehind (vec_len bytes.old) (S.remaining file.old)) }
{
    if is_hashed {
        return Ok(Some(read_hashed(file, kind, true, bytes)?));
    }
    fill(file, bytes, MAX_LEN as usize + 1)?;
    if bytes.len() as u64 > MAX_LEN {
        return Err(too_long());
    }
    Ok(None)
}

/// Returns the error of the header at the begin of the bytes, if it has one. Also returns `None` if there are fewer
/// bytes than a header and a trailer have.
fn header_fault(kind: Kind, head: &[u8]) -> Option<header::Error>
    ensures fault { IfSome result (LacksHeader kind head.now) }
    ensures long { IfSome result (λ _. 12 + id_len kind ≤ length head.now) }
{
    if head.len() < HEADER_LEN + kind.len_in_bytes() {
        return None;
    }
    match header::decode(head, kind) {
        Ok(_) => None,
        Err(fault) => Some(fault),
    }
}

/// Returns the first error of a file whose header has this error. If the trailer isn't the digest, that is the first
/// error.
fn refusal(kind: Kind, actual: ObjectId, trailer: &[u8], fault: header::Error) -> Error
    requires { length trailer.now ≡ id_len kind }
    ensures { IsComparedFirst kind actual trailer.now fault result }
{
    let Some(expected) = trailer::checksum(kind, trailer) else {
        return Error::Header(fault);
    };
    if actual != expected {
        return Error::Verify { actual, expected };
    }
    Error::Header(fault)
}

/// Returns the first error of a file whose header has this error. If the digest has to be compared, the file is read to
/// its end after this head. Only its last bytes stay in memory.
fn first_fault<S: Source>(
    file: &mut S,
    kind: Kind,
    is_compared: bool,
    fault: header::Error,
    head: &mut Vec<u8>,
) -> io::Result<Error>
    requires long { id_len kind ≤ vec_len head.old }
    ensures unread { IfOk result (λ e. is_compared ≡ false → e ≡ Header fault) }
    ensures read { IfOk result (λ e. is_compared ≡ true
        → IsRefusalBehind kind head.old.items (S.remaining file.old) fault e) }
    ensures fault { S.works file.old ≡ true
        → IfErr result (IsFaultBehind (vec_len head.old) (S.remaining file.old)) }
{
    if !is_compared {
        return Ok(Error::Header(fault));
    }
    head.reserve(WINDOW_LEN)?;
    let actual = read_hashed(file, kind, false, head)?;
    Ok(refusal(kind, actual, head, fault))
}

/// Returns an empty vector for the first bytes of a file, and the capacity for all of them, from its metadata.
fn first_room<S: Source>(alloc: Global, file: &S) -> io::Result<(Vec<u8>, usize)>
    ensures room { IfOk result (λ found. found.0.items ≡ []) }
    ensures fault { S.works file.now ≡ true
        → IfErr result (IsOwnFault (whole_of (S.stored file.now))) }
{
    let len = file.status()?.len;
    if len > MAX_LEN {
        return Err(too_long());
    }
    let room = len as usize + 1;
    Ok((Vec::with_capacity(alloc, room.min(WINDOW_LEN))?, room))
}

/// Reads all bytes of an open file, with the capacity that its metadata reports. Returns them with the digest of all
/// bytes except the last, the length of an id. There is no digest if it isn't requested, or if the last bytes are null.
///
/// If the first bytes aren't a header, no bytes are held, and the rest is read only to compare the digest.
pub fn bytes_of<S: Source>(
    alloc: Global,
    mut file: S,
    kind: Kind,
    skip_hash: bool,
) -> io::Result<WholeFile>
    requires { S.remaining file ≡ whole_of (S.stored file) }
    ensures whole { IfOk result (IsReadWhole (S.stored file) skip_hash kind) }
    ensures bound { IfOk result HoldsFew }
    ensures fault { S.works file ≡ true → IfErr result (IsOwnFault (whole_of (S.stored file))) }
{
    let (mut bytes, room) = first_room(alloc, &file)?;
    let is_hashed = may_be_compared(&mut file, kind, skip_hash, &mut bytes)?;
    fill(&mut file, &mut bytes, HEADER_LEN + kind.len_in_bytes())?;
    if let Some(fault) = header_fault(kind, &bytes) {
        let error = first_fault(&mut file, kind, is_hashed, fault, &mut bytes)?;
        return Ok(WholeFile::Refused(error));
    }
    bytes.reserve(room.saturating_sub(bytes.len()))?;
    let digest = read_whole(&mut file, kind, is_hashed, &mut bytes)?;
    Ok(WholeFile::Held(bytes, digest))
}

/// Reads a file to its end and returns its length, including the bytes that were read before. Only its last bytes, the
/// length of an id, stay in memory.
fn count_rest<S: Source>(file: &mut S, kind: Kind, bytes: &mut Vec<u8>) -> io::Result<u64>
    ensures { CountsRest S.Source file.old bytes.old.items result }
{
    bytes.reserve(WINDOW_LEN)?;
    let pieces = read_pieces(file, kind, false, false, bytes)?;
    Ok(pieces.len)
}

/// Reads all bytes of an open file, with the capacity that its metadata reports. If the first bytes aren't a header, no
/// bytes are held, and the result is their number and the error. No digest is computed.
pub fn counted_of<S: Source>(alloc: Global, mut file: S, kind: Kind) -> io::Result<CountedFile>
    requires { S.remaining file ≡ whole_of (S.stored file) }
    ensures counted { IfOk result (IsCountedFile kind (IsAllOf (S.stored file))) }
    ensures fault { S.works file ≡ true → IfErr result (IsOwnFault (whole_of (S.stored file))) }
{
    let (mut bytes, room) = first_room(alloc, &file)?;
    fill(&mut file, &mut bytes, HEADER_LEN + kind.len_in_bytes())?;
    if let Some(fault) = header_fault(kind, &bytes) {
        let len = count_rest(&mut file, kind, &mut bytes)?;
        return Ok(CountedFile::Headless(len, fault));
    }
    bytes.reserve(room.saturating_sub(bytes.len()))?;
    read_whole(&mut file, kind, false, &mut bytes)?;
    Ok(CountedFile::Held(bytes))
}
