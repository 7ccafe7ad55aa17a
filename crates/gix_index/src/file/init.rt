//! Decodes a `File` from the bytes of an index file.

ghost use Rattle.std.specs.Prelude.{◌≡◌, IfOk, IfErr, IfSome, OnOk, OnErr};
ghost use Rattle.std.specs.Path.{path_buf_bytes};
ghost use Rattle.gix_index.specs.Checked.{IsFileAnswer, FileCause};
ghost use Rattle.file_windows.specs.Intact.{digest_fault, digest_id, IsIntact, IsBroken};
ghost use Rattle.gix_index.specs.File.{IsFileOf};
ghost use Rattle.gix_index.specs.ReadFile.{IsAnswerBy, IsReadFrom};
ghost use Rattle.gix_index.specs.OnDisk.{FileIdsAreOf, IsFileFault, NeedsIntact};
ghost use Rattle.index_decode.specs.Behind.{FollowEntries};

use super::File;
use entry_fields::entry::FileTime;
pub use file_errors::init::Error;
use file_windows::ReadOptions;
use index_decode::decode::from_bytes;
use index_decode::trailer;
use index_model::decode;
use index_parts::hash::{Kind, ObjectId, digest};
use index_state::State;
use std::alloc::Global;
use std::path::PathBuf;

/// Compares the trailer with the digest of all bytes before it. The digest is computed if it isn't `known`. Nothing is
/// compared if `skip_hash` is set, or if there is no trailer or a null one.
pub fn check(
    data: &[u8],
    known: Option<ObjectId>,
    object_hash: Kind,
    skip_hash: bool,
) -> Result<(), decode::Error>
    requires known { IfSome known (λ id. id ≡ digest_id object_hash «data».now) }
    ensures ok { OnOk result (IsIntact skip_hash object_hash «data».now) }
    ensures broken { OnErr result (IsBroken skip_hash object_hash «data».now) }
    ensures err { IfErr result (λ e. e ≡ digest_fault object_hash «data».now) }
{
    let len = object_hash.len_in_bytes();
    if skip_hash || data.len() < len {
        return Ok(());
    }
    let (body, trailer) = data.split_at(data.len() - len);
    let Some(expected) = trailer::checksum(object_hash, trailer) else {
        return Ok(());
    };
    let actual = known.unwrap_or_else(|| digest(object_hash, body));
    if actual != expected {
        return Err(decode::Error::Verify { actual, expected });
    }
    Ok(())
}

/// An index that was read from all bytes of its file.
#[derive(Drop)]
pub(super) struct FileWithEnding<'a> {
    /// The index.
    pub file: File,
    /// The bytes after its last entry: the extensions and the trailer.
    pub ending: &'a [u8],
}

/// Returns the index in all bytes of a file, with the bytes after its last entry. The digest of all bytes but the
/// trailer is computed if it is to be compared and isn't known.
pub(super) fn decoded_knowing(
    alloc: Global,
    bytes: &[u8],
    known: Option<ObjectId>,
    path: PathBuf,
    reading: ReadOptions,
) -> Result<FileWithEnding<'_>, Error>
    requires known { IfSome known (λ id. id ≡ digest_id reading.object_hash bytes.now) }
    ensures read { IfOk result (λ decoded. IsReadFrom reading bytes.now decoded.file) }
    ensures ending { IfOk result
        (λ decoded. FollowEntries reading.object_hash bytes.now decoded.ending.now) }
    ensures formed { IfOk result
        (λ decoded. IsFileOf (path_buf_bytes path) reading.object_hash decoded.file) }
    ensures extension_ids { IfOk result
        (λ decoded. FileIdsAreOf reading.object_hash decoded.file) }
    ensures fault { IfErr result (IsFileFault reading.skip_hash reading.object_hash
        reading.timestamp reading.options bytes.now) }
    ensures intact { IfErr result (NeedsIntact reading.skip_hash reading.object_hash bytes.now) }
{
    let ReadOptions {
        object_hash,
        skip_hash,
        timestamp,
        options,
    } = reading;
    check(bytes, known, object_hash, skip_hash)?;
    let read = from_bytes(alloc, bytes, timestamp, object_hash, options)?;
    let file = File {
        state: State::from(read.parts),
        path,
        checksum: read.checksum,
    };
    Ok(FileWithEnding {
        file,
        ending: read.ending,
    })
}

/// Returns the index in all bytes of a file. The digest of all bytes but the trailer is computed if it is to be
/// compared.
pub(super) fn decode_file(
    alloc: Global,
    bytes: &[u8],
    path: PathBuf,
    reading: ReadOptions,
) -> Result<File, Error>
    ensures answer { FileCause result (IsAnswerBy reading bytes.now) }
    ensures intact { IfErr result (NeedsIntact reading.skip_hash reading.object_hash bytes.now) }
    ensures formed { IfOk result (IsFileOf (path_buf_bytes path) reading.object_hash) }
    ensures extension_ids { IfOk result
        (FileIdsAreOf reading.object_hash) }
{
    match decoded_knowing(alloc, bytes, None, path, reading) {
        Ok(decoded) => Ok(decoded.file),
        Err(e) => Err(e),
    }
}

impl File {
    /// Decodes an index from all bytes of its file. `path` is the path at which the file is or will be.
    ///
    /// First the digest of all bytes except the trailer is compared with the trailer. This is skipped with `skip_hash`,
    /// if the trailer is null, and if there are fewer bytes than a trailer has. Then the bytes are decoded as
    /// [`State::from_bytes`] decodes them. The checksum is the trailer, or `None` if it is null.
    ///
    /// The link of a split index isn't followed. Such a state has only its own entries, some of them with an empty
    /// path. A file that is written from it has no link.
    ///
    /// # Errors
    ///
    /// - [`Error::Decode`] with [`decode::Error::Verify`]: the digest differs from the trailer. The error names the
    ///   digest as `actual`.
    /// - [`Error::Decode`]: an error of [`State::from_bytes`].
    /// - [`Error::Memory`]: an allocation failure.
    pub fn decode(
        alloc: Global,
        data: &[u8],
        path: PathBuf,
        object_hash: Kind,
        skip_hash: bool,
        timestamp: FileTime,
        options: decode::Options,
    ) -> Result<File, Error>
        ensures answer { FileCause result
            (IsFileAnswer skip_hash object_hash timestamp options «data».now) }
        ensures intact { IfErr result (NeedsIntact skip_hash object_hash «data».now) }
        ensures formed { IfOk result (IsFileOf (path_buf_bytes path) object_hash) }
        ensures extension_ids { IfOk result
            (FileIdsAreOf object_hash) }
    {
        let reading = ReadOptions {
            object_hash,
            skip_hash,
            timestamp,
            options,
        };
        decode_file(alloc, data, path, reading)
    }
}
