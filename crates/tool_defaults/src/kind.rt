//! Which hash algorithm the ids of an index have.

ghost use Rattle.std.specs.Prelude.{◌↔◌, IfErr, IfOk, IsTrue};
ghost use Rattle.std.specs.Path.{path_buf_bytes};
ghost use Rattle.tool_defaults.specs.Digests.{HasSignature};
ghost use Rattle.tool_defaults.specs.KindAt.{IsKindAt, KindCause};
ghost use Rattle.tool_defaults.specs.KindCalls.{OpensPlain, OpensSigned, ReadsFirst};

use crate::error::{Error, FirstBytes};
use crate::repository::{format_at, is_in_git_folder, kind_in_repository};
use crate::trailer::kind_of_file;
use file_place::pieces::fill;
use gix_index::file::folder::{Folder, Source};
use gix_index::hash::Kind;
use std::alloc::Global;
use std::io;
use std::path::{Path, PathBuf};

/// Returns whether bytes begin with the signature of an index (gitformat-index, "The signature is { 'D', 'I', 'R', 'C'
/// }").
fn is_signed(bytes: &[u8]) -> bool
    ensures { IsTrue result ↔ HasSignature bytes.now }
{
    bytes.starts_with(b"DIRC")
}

/// Opens the regular file at a path. Returns `None` if no regular file is opened there, and then reads nothing from it.
/// A directory is an error.
fn open_plain<D: Folder>(folder: &D, path: Path<'_>) -> io::Result<Option<D::File>>
    ensures { OpensPlain D.Folder D.File.Source folder.now path.entry result }
{
    let mut file = folder.open(path)?;
    if !file.status()?.is_plain {
        file.read(&mut [])?;
        return Ok(None);
    }
    Ok(Some(file))
}

/// Reads the first four bytes of a file that is at its start, or all if it has fewer.
fn first_bytes<S: Source>(alloc: Global, file: &mut S) -> io::Result<Vec<u8>>
    ensures { ReadsFirst S.Source file.old file.new result }
{
    let mut first = Vec::with_capacity(alloc, 4)?;
    fill(file, &mut first, 4)?;
    Ok(first)
}

/// Opens the file at a path, if it begins as an index. An error has the reason why not.
fn open_signed<D: Folder>(folder: &D, alloc: Global, path: &PathBuf) -> Result<D::File, Error>
    ensures opened { IfOk result
        (OpensSigned D.Folder D.File.Source folder.now (path_buf_bytes path.now)) }
    ensures fault { IfErr result
        (KindCause (D.works folder.now) (D.known folder.now) (path_buf_bytes path.now)) }
{
    let mut file = match open_plain(folder, path.as_path()) {
        Ok(Some(file)) => file,
        Ok(None) => return Err(Error::NotRegular(path.clone()?)),
        Err(e) => return Err(Error::of(path.clone()?, e)),
    };
    let first = match first_bytes(alloc, &mut file) {
        Ok(first) => first,
        Err(e) => return Err(Error::of(path.clone()?, e)),
    };
    if first.is_empty() {
        return Err(Error::Empty(path.clone()?));
    }
    if !is_signed(&first) {
        let start = FirstBytes::of(alloc, &first)?;
        let path = path.clone()?;
        return Err(Error::NoIndex { path, start });
    }
    Ok(file)
}

/// Returns the hash algorithm of the ids of the index in a file.
///
/// - If `HEAD` is next to the file, the file is in the git directory of a repository. The algorithm is then the one in
///   the repository's `config`, as [`format_of`](crate::format_of) reads it, and SHA-1 if there is no `config`.
/// - In a linked work tree this is the `config` in the directory that `commondir` names.
/// - For any other file, it is the algorithm for which the trailer is the checksum of all bytes before it.
/// - If the trailer is neither checksum, it is the algorithm in a `config` next to the file.
///
/// # Errors
///
/// - [`Error::Io`] names the file that can't be opened or read: this one, `HEAD`, `commondir` or the `config`.
/// - [`Error::NotRegular`]: the file is a pipe or a device, and nothing was read from it.
/// - [`Error::Empty`], [`Error::NoIndex`]: by its first bytes the file isn't an index, and no more of it is read.
/// - [`Error::OtherKind`]: the repository's `config` names neither algorithm.
/// - [`Error::NoCommonDir`]: `commondir` names no directory.
/// - [`Error::KindNotTold`]: the file is in no repository, and its trailer isn't its checksum. No `config` is next to
///   it, or one that names neither algorithm.
/// - [`Error::Memory`]: an allocation failed.
pub fn kind_at<D: Folder>(folder: &D, alloc: Global, path: &str) -> Result<Kind, Error>
    ensures told { IfOk result (IsKindAt (D.known folder.now) path.now) }
    ensures fault { IfErr result (KindCause (D.works folder.now) (D.known folder.now) path.now) }
{
    let index = PathBuf::from_str(alloc, path)?;
    let mut file = open_signed(folder, alloc, &index)?;
    if is_in_git_folder(folder, alloc, &index)? {
        return kind_in_repository(folder, alloc, &index);
    }
    match kind_of_file(alloc, &mut file) {
        Ok(Some(kind)) => return Ok(kind),
        Ok(None) => {}
        Err(e) => return Err(Error::of(index, e)),
    }
    let config = index.with_file_name(alloc, "config")?;
    match format_at(folder, alloc, config.as_path()) {
        Ok(Some(kind)) => Ok(kind),
        Ok(None) => Err(Error::KindNotTold(index)),
        Err(e) => Err(Error::of(config, e)),
    }
}
