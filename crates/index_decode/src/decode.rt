//! Decodes an index from the bytes of a file.

pub mod entries;
pub mod header;

ghost use Rattle.std.specs.Option.{option_map};
ghost use Rattle.std.specs.Prelude.{◌≡◌, ◌≤◌, ◌+◌, ◌*◌, ◌||◌, not, length, IfOk, IfErr, OnOk, All};
ghost use Rattle.index_parts.specs.Id.{id_kind, id_len};
ghost use Rattle.index_model.specs.Outcome.{outcome_of};
ghost use Rattle.index_model.specs.Answer.{Answer, IsAnswer, IsVerified, speak_of_own};
ghost use Rattle.index_model.specs.DecodeErrors.{ResultIs};
ghost use Rattle.index_parts.specs.Limit.{is_within};
ghost use Rattle.entry_list.specs.Limits.{entry_cost};
ghost use Rattle.index_model.specs.Storable.{IsStorable};
ghost use Rattle.index_model.specs.Contents.{ExtensionIdsAreOf, parts_contents};
ghost use Rattle.entry_list.specs.Record.{has_directory};
ghost use Rattle.ext_split.specs.Link.{link_of};
ghost use Rattle.index_decode.specs.Head.{IsDeclared, LooksAt};
ghost use Rattle.index_decode.specs.ReadParts.{AreOfKind, IsAnswerBehind, IsEndingAs, IsTakenAs};
ghost use Rattle.index_decode.specs.ReadParts.{FollowCounted, DigestCause, SaysRead, WholeHeaderCause};
ghost use Rattle.index_decode.specs.Behind.{FollowEntries};

use crate::{extension, trailer};
use entry_decode::entries::{Read, read_entries};
use entry_fields::entry::FileTime;
use entry_list::Version;
use ext_split::link::Link;
use index_extensions::end_of_index_entry;
use index_model::Parts;
use index_model::decode::{Error, Options};
use index_model::extension::Outcome;
use index_parts::hash::{Kind, ObjectId};
use index_parts::read;
use std::alloc::Global;

/// The number of bytes that an entry counts against [`Options::alloc_limit_bytes`].
const ENTRY_COST: usize = 96;

/// Checks that the ids agree, if there are two.
fn verify(expected: Option<ObjectId>, actual: Option<ObjectId>) -> Result<(), Error>
    ensures ok { OnOk result ((whole : Answer) → IsVerified expected actual whole whole) }
    ensures err { IfErr result (DigestCause expected actual) }
{
    let Some(expected) = expected else {
        return Ok(());
    };
    let Some(actual) = actual else {
        return Ok(());
    };
    if actual != expected {
        return Err(Error::Verify { actual, expected });
    }
    Ok(())
}

/// Returns whether extensions describe only the entries of the same file: there is no link, or its id is null.
fn speak_of_own(link: &Option<Link>) -> bool
    ensures { result ≡ speak_of_own (option_map link_of link.now) }
{
    match link {
        Some(link) => link.shared_index_checksum.is_null(),
        None => true,
    }
}

/// The properties of a file that determine how it is read.
#[derive(Clone, Copy)]
pub struct ReadAs {
    /// The time at which the file was last changed.
    pub timestamp: FileTime,
    /// The hash algorithm of its ids.
    pub object_hash: Kind,
    /// The version in its header.
    pub version: Version,
    /// The options of the caller.
    pub options: Options,
}

/// Returns the state of entries and extensions that were read, if `left` bytes remain before the trailer.
fn read_parts(
    read: Read<'_>,
    outcome: Outcome,
    left: usize,
    trailer: &[u8],
    read_as: ReadAs,
) -> Result<(Parts, Option<ObjectId>), Error>
    requires ids { All (λ r. id_kind r.id ≡ read_as.object_hash) read.list.records }
    requires extension_ids { ExtensionIdsAreOf read_as.object_hash (outcome_of outcome) }
    requires sparse { read.sparse ≡ has_directory read.list.records }
    requires trailer { length trailer.now ≡ id_len read_as.object_hash }
    requires room { left + id_len read_as.object_hash ≤ 0xffffffffffffffff }
    ensures taken { ResultIs parts_contents result
        (IsTakenAs read_as read.entry outcome left trailer.now) }
    ensures parts { IfOk result (λ x. AreOfKind read_as.object_hash x.0) }
{
    let ReadAs {
        timestamp,
        object_hash,
        version,
        options,
    } = read_as;
    if left != 0 {
        let expected = object_hash.len_in_bytes();
        let actual = left + expected;
        return Err(Error::UnexpectedTrailerLength { expected, actual });
    }
    let checksum = trailer::checksum(object_hash, trailer);
    verify(options.expected_checksum, checksum)?;
    let extensions_fit = speak_of_own(&outcome.link);
    let (entries, path_backing) = read.list.into_parts();
    let state = Parts {
        object_hash,
        timestamp,
        version,
        entries,
        path_backing,
        extensions: Outcome {
            is_sparse: outcome.is_sparse || read.sparse,
            ..outcome
        },
        extensions_fit,
    };
    Ok((state, checksum))
}

/// Reads the extensions and the trailer after the entries. Returns the parts of the index, and the trailer's id, or
/// `None` if it is null.
pub fn read_ending(
    alloc: Global,
    read: Read<'_>,
    read_as: ReadAs,
) -> Result<(Parts, Option<ObjectId>), Error>
    requires ids { All (λ r. id_kind r.id ≡ read_as.object_hash) read.list.records }
    requires sparse { read.sparse ≡ has_directory read.list.records }
    ensures ending { ResultIs parts_contents result (IsEndingAs read_as read.entry) }
    ensures parts { IfOk result (λ x. AreOfKind read_as.object_hash x.0) }
{
    let expected = read_as.object_hash.len_in_bytes();
    let actual = read.rest.len();
    if actual < expected {
        return Err(Error::UnexpectedTrailerLength { expected, actual });
    }
    let (extensions, trailer) = read.rest.split_at(actual - expected);
    let limit = read_as.options.alloc_limit_bytes;
    let (outcome, left) = extension::all(alloc, extensions, read_as.object_hash, limit)?;
    read_parts(read, outcome, left, trailer, read_as)
}

/// Returns whether entries, or the estimate of their paths, exceed the limit.
fn is_too_large(limit: Option<usize>, count: u32, paths: usize) -> bool
    ensures { result ≡ (not (is_within limit (entry_cost * count)) || not (is_within limit paths)) }
{
    !read::is_within(limit, ENTRY_COST * count as usize) || !read::is_within(limit, paths)
}

/// The content of a file's header, and the bytes after it.
#[derive(Clone, Copy)]
pub struct Declared<'a> {
    /// The version of the encoding.
    pub version: Version,
    /// The count of entries.
    pub count: u32,
    /// An estimate of the total length of their paths in bytes.
    pub paths: usize,
    /// The given bytes after the header.
    pub rest: &'a [u8],
}

/// Returns the content of the header at the start of a file of `len` bytes. The file's end marker has the given offset,
/// or there is none.
///
/// The error is that of the header, of a count that exceeds what such a file can have, or of the limit.
pub fn declared_by(
    head: &[u8],
    len: usize,
    offset: Option<usize>,
    object_hash: Kind,
    options: Options,
) -> Result<Declared<'_>, Error>
    ensures declared { IfOk result (IsDeclared object_hash options head.now len offset) }
    // If the head is the complete file.
    ensures fault { IfErr result (WholeHeaderCause object_hash options head.now len offset) }
{
    let (version, count, rest) = header::decode(head, object_hash)?;
    if count as usize > entries::max_entries_possible(len, offset, object_hash, version) {
        return Err(Error::Header(header::Error::Corrupt(
            "Declared entry count exceeds possible entries for file size",
        )));
    }
    let paths = entries::estimate_path_storage_requirements_in_bytes(
        count,
        len,
        offset,
        object_hash,
        version,
    );
    if is_too_large(options.alloc_limit_bytes, count, paths) {
        return Err(Error::OutOfMemory);
    }
    Ok(Declared {
        version,
        count,
        paths,
        rest,
    })
}

/// Returns the content of the header of a file, from all its bytes. The errors are those of [`declared_by`].
pub fn declared_in(data: &[u8], object_hash: Kind, options: Options) -> Result<Declared<'_>, Error>
    ensures { LooksAt object_hash options «data».now result }
{
    let offset = end_of_index_entry::decode(data, object_hash);
    declared_by(data, data.len(), offset, object_hash, options)
}

/// An index that was read from all bytes of its file.
#[derive(Drop)]
pub struct ReadIndex<'a> {
    /// The parts of the index.
    pub parts: Parts,
    /// The id in the trailer, or None if the trailer is null.
    pub checksum: Option<ObjectId>,
    /// The bytes after the last entry: the extensions and the trailer.
    pub ending: &'a [u8],
}

/// Reads `count` entries from the start of the bytes, and the extensions and the trailer after them.
fn read_behind_header(
    alloc: Global,
    read_as: ReadAs,
    count: u32,
    paths: usize,
    bytes: &[u8],
) -> Result<ReadIndex<'_>, Error>
    ensures behind { SaysRead result (IsAnswerBehind read_as count bytes.now) }
    ensures parts { IfOk result (λ read. AreOfKind read_as.object_hash read.parts) }
    ensures ending { IfOk result (λ read. FollowCounted read_as count bytes.now read.ending.now) }
{
    let ReadAs {
        object_hash,
        version,
        ..
    } = read_as;
    let read = read_entries(alloc, version, object_hash, count, paths, bytes)?;
    let ending = read.rest;
    let (parts, checksum) = read_ending(alloc, read, read_as)?;
    Ok(ReadIndex {
        parts,
        checksum,
        ending,
    })
}

/// Reads the parts of an index from all bytes of its file. Returns them with the trailer's id and the bytes after the
/// last entry. The digest isn't computed.
///
/// The error is the first one, in the order of the variants of [`Error`].
pub fn from_bytes(
    alloc: Global,
    data: &[u8],
    timestamp: FileTime,
    object_hash: Kind,
    options: Options,
) -> Result<ReadIndex<'_>, Error>
    // The value and the trailer's id, or the first error that the format defines for these bytes.
    ensures answer { SaysRead result (IsAnswer object_hash timestamp options «data».now) }
    ensures parts { IfOk result (λ read. AreOfKind object_hash read.parts) }
    ensures storable { IfOk result (λ read. IsStorable (parts_contents read.parts)) }
    ensures ending { IfOk result
        (λ read. FollowEntries object_hash «data».now read.ending.now) }
{
    let declared = declared_in(data, object_hash, options)?;
    let read_as = ReadAs {
        timestamp,
        object_hash,
        version: declared.version,
        options,
    };
    read_behind_header(
        alloc,
        read_as,
        declared.count,
        declared.paths,
        declared.rest,
    )
}
