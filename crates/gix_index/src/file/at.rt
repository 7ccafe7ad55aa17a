//! Reads an index from the disk, with the shared index that it links to.

ghost use Rattle.std.specs.Prelude.{◌≡◌, false, true, IfErr, IfOk, IsOk, Ok};
ghost use Rattle.std.specs.Path.{path_buf_bytes, path_bytes};
ghost use Rattle.index_model.specs.declared.decode.Options.{Options};
ghost use Rattle.index_parts.specs.declared.hash.ObjectId.{ObjectId};
ghost use Rattle.gix_index.specs.Disk.{IsTimeFor, known_of, shared_path};
ghost use Rattle.gix_index.specs.File.{path_of, state_of};
ghost use Rattle.gix_index.specs.File.{IsWholeFile};
ghost use Rattle.gix_index.specs.ReadFile.{FollowsTo, IsFound, IsOpened, IsOpenedOrEmpty, IsReadAt, IsReadBy};
ghost use Rattle.gix_index.specs.ReadFile.{IsReadOf, IsReadOrEmpty, IsReadOrEmptyBy, IsSharedRead};
ghost use Rattle.gix_index.specs.ReadFile.{FindCause, FollowCause, OpenCause, ReadCause, ReadCauseBy, SharedReadCause};
ghost use Rattle.index_state.specs.State.{IsWellFormed};
ghost use Rattle.gix_index.specs.OnDisk.{IsSharedPath};
ghost use Rattle.gix_index.specs.OnSystem.{system_world};

use super::File;
use super::init::Error;
use super::split::take_followed_link;
use super::unfollowed::read_file;
use entry_fields::entry::FileTime;
use file_place::folder::{Folder, Source};
use file_place::system::System;
use file_windows::ReadOptions;
use index_model::decode;
use index_parts::hash::{Kind, ObjectId};
use index_state::State;
use std::alloc::{AllocError, Global};
use std::io;
use std::io::ErrorKind;
use std::path::{Path, PathBuf};
use std::rt::Files;

/// Returns the path of the shared index with this id (gitformat-index, "Split index").
///
/// `path` is that of the split index. The shared index is in the same directory. Its name is `sharedindex.` followed by
/// the id in lower-case hexadecimal.
///
/// The error is an allocation failure.
pub fn shared_path(alloc: Global, path: Path<'_>, id: &ObjectId) -> Result<PathBuf, AllocError>
    ensures { IfOk result (IsSharedPath (path_bytes path.entry) id.now) }
{
    let name = format!(in alloc; "sharedindex.{id}")?;
    path.with_file_name(alloc, name.as_str())
}

/// Reads the shared index `id` from the directory of the index at `path`. Its trailer must be `id` or null.
fn shared_at<D: Folder>(
    folder: &D,
    alloc: Global,
    path: Path<'_>,
    id: ObjectId,
    reading: ReadOptions,
) -> Result<State, Error>
    ensures read { IfOk result (IsSharedRead (D.known folder.now) path.entry id reading) }
    ensures formed { IfOk result (IsWellFormed reading.object_hash) }
    ensures fault { IfErr result
        (SharedReadCause (D.works folder.now) (D.known folder.now) path.entry id reading) }
{
    let shared = shared_path(alloc, path, &id)?;
    let file = match folder.open(shared.as_path()) {
        Ok(file) => file,
        Err(e) => return Err(Error::of(shared, e)),
    };
    let mut options = reading.options;
    options.expected_checksum = Some(id);
    let read = read_file(
        alloc,
        file,
        shared,
        ReadOptions { options, ..reading },
        false,
    )?;
    Ok(read.index.into_parts().0)
}

/// Takes the link out of the file, and merges the shared index that it names.
fn follow<D: Folder>(
    folder: &D,
    alloc: Global,
    mut file: File,
    reading: ReadOptions,
) -> Result<File, Error>
    requires read { IsReadOf reading file }
    requires formed { IsWellFormed reading.object_hash (state_of file) }
    ensures read { IfOk result (FollowsTo (D.known folder.now) reading file) }
    ensures whole { IfOk result (IsWholeFile (path_of file) reading.object_hash) }
    ensures fault { IfErr result
        (FollowCause (D.works folder.now) (D.known folder.now) reading file) }
{
    let Some(link) = take_followed_link(&mut file.state) else {
        return Ok(file);
    };
    let id = link.shared_index_checksum;
    let shared = shared_at(folder, alloc, file.path.as_path(), id, reading)?;
    link.dissolve_into(alloc, &mut file.state, shared)?;
    Ok(file)
}

/// Returns when an opened file was last changed if `is_wanted`, or else `given`.
fn time_of<S: Source>(file: &S, is_wanted: bool, given: FileTime) -> io::Result<FileTime>
    ensures time { IfOk result (IsTimeFor is_wanted given (known_of (S.stored file.now))) }
    ensures succeeds { S.works file.now ≡ true → IsOk result }
{
    if is_wanted {
        return Ok(file.status()?.modified);
    }
    Ok(given)
}

/// Reads the index in the file at one path and merges its shared index. The other path becomes the path of the result.
///
/// If opening reports that there is no file and `or_default` is set, returns an empty index with the given time. With
/// `has_time` the time is that of the file's last change instead of the given one.
pub(super) fn read_from<D: Folder>(
    folder: &D,
    alloc: Global,
    at: Path<'_>,
    path: PathBuf,
    reading: ReadOptions,
    or_default: bool,
    has_time: bool,
) -> Result<File, Error>
    ensures read { IfOk result
        (IsFound (D.known folder.now) at.entry path reading or_default has_time) }
    ensures whole { IfOk result (IsWholeFile (path_buf_bytes path) reading.object_hash) }
    ensures fault { IfErr result
        (FindCause (D.works folder.now) (D.known folder.now) at.entry path reading has_time) }
{
    let file = match folder.open(at) {
        Ok(file) => file,
        Err(e) if or_default && e.kind() == ErrorKind::NotFound => {
            return Ok(File::from_state(
                State::new(alloc, reading.object_hash, reading.timestamp),
                path,
            ));
        }
        Err(e) => return Err(Error::of(path, e)),
    };
    let timestamp = match time_of(&file, has_time, reading.timestamp) {
        Ok(timestamp) => timestamp,
        Err(e) => return Err(Error::of(path, e)),
    };
    let reading = ReadOptions {
        timestamp,
        ..reading
    };
    let read = read_file(alloc, file, path, reading, false)?;
    follow(folder, alloc, read.index, reading)
}

/// Returns what [`File::at_in`] returns, with an error of the caller's type. The texts of [`Error`] are `'static`. The
/// toolchain proves no call over [`System`], a generic type with a lifetime, of a function whose signature has
/// `'static`.
fn at_telling<D: Folder, E: From<Error> + Drop>(
    folder: &D,
    alloc: Global,
    path: PathBuf,
    reading: ReadOptions,
) -> Result<File, E>
    ensures read { IfOk result (IsReadBy (D.known folder.now) path reading) }
    ensures whole { IfOk result (IsWholeFile (path_buf_bytes path) reading.object_hash) }
    ensures fault { IfErr result (λ told. (cause : Error) × E.from_gives cause told
        × ReadCauseBy (D.works folder.now) (D.known folder.now) path reading cause) }
{
    match File::at_in(folder, alloc, path, reading) {
        Ok(file) => Ok(file),
        Err(e) => Err(E::from(e)),
    }
}

/// Returns what [`File::at_or_default_in`] returns, with an error of the caller's type.
fn default_telling<D: Folder, E: From<Error> + Drop>(
    folder: &D,
    alloc: Global,
    path: PathBuf,
    reading: ReadOptions,
) -> Result<File, E>
    ensures read { IfOk result (IsReadOrEmptyBy (D.known folder.now) path reading) }
    ensures whole { IfOk result (IsWholeFile (path_buf_bytes path) reading.object_hash) }
    ensures fault { IfErr result (λ told. (cause : Error) × E.from_gives cause told
        × ReadCauseBy (D.works folder.now) (D.known folder.now) path reading cause) }
{
    match File::at_or_default_in(folder, alloc, path, reading) {
        Ok(file) => Ok(file),
        Err(e) => Err(E::from(e)),
    }
}

impl File {
    /// Reads the index in the file at a path, with the shared index that it links to. The files are the system's.
    ///
    /// The file's bytes are read as [`File::decode`] reads them. The buffer has the length that the file's metadata
    /// report. Then the link is taken out (gitformat-index, "Split index"). If it has an id that isn't null, the shared
    /// index is read in the same way. That file is in the same directory and is named `sharedindex.` followed by the id
    /// in lower-case hexadecimal. Its trailer must be the id or null. It is merged by
    /// [`Link::dissolve_into`](ext_split::link::Link::dissolve_into). The checksum is that of the file at the path.
    ///
    /// # Errors
    ///
    /// - [`Error::Io`]: the index or the shared index can't be opened or read. The error names that file.
    /// - [`Error::Decode`] and [`Error::Memory`]: those of [`File::decode`], for either file.
    /// - [`Error::LinkExtension`]: the link doesn't match the shared index.
    pub fn at<R: Files>(
        rt: &R,
        alloc: Global,
        path: PathBuf,
        object_hash: Kind,
        skip_hash: bool,
        timestamp: FileTime,
        options: decode::Options,
    ) -> Result<File, Error>
        ensures read { IfOk result
            (IsReadAt system_world path skip_hash object_hash timestamp options) }
        ensures whole { IfOk result (IsWholeFile (path_buf_bytes path) object_hash) }
        ensures fault { IfErr result
            (ReadCause false system_world path skip_hash object_hash timestamp options) }
    {
        let reading = ReadOptions {
            object_hash,
            skip_hash,
            timestamp,
            options,
        };
        let folder = System { rt };
        at_telling::<System<'_, R>, Error>(&folder, alloc, path, reading)
    }

    /// Reads an index as [`File::at`] does, from a file in a [`Folder`].
    pub fn at_in<D: Folder>(
        folder: &D,
        alloc: Global,
        path: PathBuf,
        reading: ReadOptions,
    ) -> Result<File, Error>
        ensures read { IfOk result (IsReadBy (D.known folder.now) path reading) }
        ensures whole { IfOk result (IsWholeFile (path_buf_bytes path) reading.object_hash) }
        ensures fault { IfErr result
            (ReadCauseBy (D.works folder.now) (D.known folder.now) path reading) }
    {
        let at = path.clone()?;
        read_from(folder, alloc, at.as_path(), path, reading, false, false)
    }

    /// Reads an index as [`File::at`] does, or returns an index without entries if opening reports that there is no
    /// file at the path. The empty index has the given timestamp, version 2 and no checksum.
    ///
    /// The errors are those of [`File::at`]. A file that only a later call doesn't find, such as the shared index, is
    /// [`Error::Io`].
    pub fn at_or_default<R: Files>(
        rt: &R,
        alloc: Global,
        path: PathBuf,
        object_hash: Kind,
        skip_hash: bool,
        timestamp: FileTime,
        options: decode::Options,
    ) -> Result<File, Error>
        ensures read { IfOk result
            (IsReadOrEmpty system_world path skip_hash object_hash timestamp options) }
        ensures whole { IfOk result (IsWholeFile (path_buf_bytes path) object_hash) }
        ensures fault { IfErr result
            (ReadCause false system_world path skip_hash object_hash timestamp options) }
    {
        let reading = ReadOptions {
            object_hash,
            skip_hash,
            timestamp,
            options,
        };
        let folder = System { rt };
        default_telling::<System<'_, R>, Error>(&folder, alloc, path, reading)
    }

    /// Reads an index as [`File::at_or_default`] does, from a file in a [`Folder`].
    pub fn at_or_default_in<D: Folder>(
        folder: &D,
        alloc: Global,
        path: PathBuf,
        reading: ReadOptions,
    ) -> Result<File, Error>
        ensures read { IfOk result (IsReadOrEmptyBy (D.known folder.now) path reading) }
        ensures whole { IfOk result (IsWholeFile (path_buf_bytes path) reading.object_hash) }
        ensures fault { IfErr result
            (ReadCauseBy (D.works folder.now) (D.known folder.now) path reading) }
    {
        let at = path.clone()?;
        read_from(folder, alloc, at.as_path(), path, reading, true, false)
    }

    /// Reads an index as [`File::at_in`] does, with the time of the file's last change as its timestamp. That time is
    /// the one that the opened file reports; the timestamp of `reading` isn't used. git compares this time with those
    /// of the entries (racy-git, "Racy Git"). It is the beginning of 1970 if the system doesn't report it.
    pub fn open<D: Folder>(
        folder: &D,
        alloc: Global,
        path: PathBuf,
        reading: ReadOptions,
    ) -> Result<File, Error>
        ensures read { IfOk result (IsOpened (D.known folder.now) path reading) }
        ensures whole { IfOk result (IsWholeFile (path_buf_bytes path) reading.object_hash) }
        ensures fault { IfErr result
            (OpenCause (D.works folder.now) (D.known folder.now) path reading) }
    {
        let at = path.clone()?;
        read_from(folder, alloc, at.as_path(), path, reading, false, true)
    }

    /// Returns the index in a file as [`File::open`] does, or an index without entries if opening reports that there is
    /// no file at the path. The empty index has the timestamp of `reading`, version 2 and no checksum.
    ///
    /// The errors are those of [`File::open`]. A file that is missing only for a later call is [`Error::Io`].
    pub fn open_or_default<D: Folder>(
        folder: &D,
        alloc: Global,
        path: PathBuf,
        reading: ReadOptions,
    ) -> Result<File, Error>
        ensures read { IfOk result (IsOpenedOrEmpty (D.known folder.now) path reading) }
        ensures whole { IfOk result (IsWholeFile (path_buf_bytes path) reading.object_hash) }
        ensures fault { IfErr result
            (OpenCause (D.works folder.now) (D.known folder.now) path reading) }
    {
        let at = path.clone()?;
        read_from(folder, alloc, at.as_path(), path, reading, true, true)
    }
}
