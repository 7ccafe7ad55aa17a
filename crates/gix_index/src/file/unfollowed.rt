//! Reads an index from the disk without its shared index: in windows or all at once, optionally with the bytes after
//! its entries.

ghost use Rattle.std.specs.Prelude.{◌≡◌, Option, IfErr, IfOk, IfSome, Ok};
ghost use Rattle.std.specs.Path.{path_buf_bytes};
ghost use Rattle.file_place.specs.World.{whole_of};
ghost use Rattle.index_parts.specs.declared.hash.ObjectId.{ObjectId};
ghost use Rattle.file_windows.specs.Intact.{digest_id};
ghost use Rattle.gix_index.specs.Disk.{known_of};
ghost use Rattle.gix_index.specs.Linked.{IsReadAlone};
ghost use Rattle.gix_index.specs.ReadFile.{FileOptionsCause, IsFileReadKeeping, IsReadKeeping};
ghost use Rattle.gix_index.specs.ReadFile.{PossibleBytesCause};
ghost use Rattle.gix_index.specs.OnDisk.{IsAloneOf};

use super::File;
use super::init::{Error, decoded_knowing};
use file_place::folder::{Folder, Source};
use file_windows::ReadOptions;
use file_windows::disk::{WholeFile, bytes_of};
use file_windows::large::in_windows;
use index_parts::hash::ObjectId;
use index_state::State;
use std::alloc::Global;
use std::path::PathBuf;

/// An index that was read without its shared index, and the end of its file.
#[derive(Drop)]
pub struct Unfollowed {
    /// The index. A link to a shared index is in it as it was read.
    pub index: File,
    /// The bytes after its entries: the extensions and the trailer.
    pub ending: Vec<u8>,
}

/// Returns the index in all bytes of a file, with a copy of the bytes after its entries if `keeps_ending` is set. The
/// digest is computed if it is to be compared and isn't known.
fn decoded_whole(
    alloc: Global,
    bytes: &[u8],
    known: Option<ObjectId>,
    path: PathBuf,
    reading: ReadOptions,
    keeps_ending: bool,
) -> Result<Unfollowed, Error>
    requires known { IfSome known (λ id. id ≡ digest_id reading.object_hash bytes.now) }
    ensures read { IfOk result (IsReadKeeping keeps_ending reading bytes.now) }
    ensures formed { IfOk result
        (IsAloneOf (path_buf_bytes path) reading.object_hash) }
    ensures fault { IfErr result (PossibleBytesCause (path_buf_bytes path) bytes.now reading) }
{
    let decoded = decoded_knowing(alloc, bytes, known, path, reading)?;
    let (index, rest) = (decoded.file, decoded.ending);
    let mut ending = Vec::new(alloc);
    if !keeps_ending {
        return Ok(Unfollowed { index, ending });
    }
    ending.extend_from_slice(rest)?;
    Ok(Unfollowed { index, ending })
}

/// Reads the index in an opened file without following its link: in windows if possible, or else all at once.
///
/// With `keeps_ending` all bytes after its entries are returned. Otherwise none or some of them are. If the first bytes
/// aren't a header, no bytes are held in memory.
pub(super) fn read_file<S: Source>(
    alloc: Global,
    mut file: S,
    path: PathBuf,
    reading: ReadOptions,
    keeps_ending: bool,
) -> Result<Unfollowed, Error>
    requires { S.remaining file ≡ whole_of (S.stored file) }
    ensures read { IfOk result
        (IsFileReadKeeping keeps_ending reading (known_of (S.stored file))) }
    ensures formed { IfOk result
        (IsAloneOf (path_buf_bytes path) reading.object_hash) }
    ensures fault { IfErr result
        (FileOptionsCause (path_buf_bytes path) (S.works file) (known_of (S.stored file)) reading) }
{
    match in_windows(alloc, &mut file, reading, keeps_ending) {
        Ok(Some(read)) => {
            return Ok(Unfollowed {
                index: File {
                    state: State::from(read.parts),
                    path,
                    checksum: read.checksum,
                },
                ending: read.ending,
            });
        }
        Ok(None) => {}
        Err(e) => return Err(Error::of(path, e)),
    }
    match bytes_of(alloc, file, reading.object_hash, reading.skip_hash) {
        Ok(WholeFile::Held(bytes, digest)) => {
            decoded_whole(alloc, &bytes, digest, path, reading, keeps_ending)
        }
        Ok(WholeFile::Refused(e)) => Err(Error::Decode(e)),
        Err(e) => Err(Error::of(path, e)),
    }
}

impl File {
    /// Reads the index in the file at a path as [`File::at`] does, but doesn't follow its link to a shared index.
    ///
    /// Also returns the bytes after its entries: the extensions and the trailer (gitformat-index, "Extensions"). For a
    /// large file, only these bytes and one window are in memory in addition to the index.
    ///
    /// # Errors
    ///
    /// - [`Error::Io`]: the file can't be opened or read. The error names the file.
    /// - [`Error::Decode`] and [`Error::Memory`]: those of [`File::decode`].
    pub fn unfollowed_at<D: Folder>(
        folder: &D,
        alloc: Global,
        path: PathBuf,
        reading: ReadOptions,
    ) -> Result<Unfollowed, Error>
        ensures read { IfOk result (IsReadAlone (D.known folder.now (path_buf_bytes path))
            reading.skip_hash reading.object_hash reading.timestamp reading.options) }
        ensures formed { IfOk result (IsAloneOf (path_buf_bytes path) reading.object_hash) }
        ensures fault { IfErr result (FileOptionsCause (path_buf_bytes path) (D.works folder.now)
            (D.known folder.now (path_buf_bytes path)) reading) }
    {
        match folder.open(path.as_path()) {
            Ok(file) => read_file(alloc, file, path, reading, true),
            Err(e) => Err(Error::of(path, e)),
        }
    }
}
