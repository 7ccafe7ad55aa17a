//! Which hash algorithm the ids of a file's repository have, by the `config` that applies there.

ghost use Rattle.std.specs.Prelude.{◌≡◌, false, true, IfErr, IfOk};
ghost use Rattle.std.specs.Path.{path_buf_bytes};
ghost use Rattle.tool_defaults.specs.KindAt.{KindCause};
ghost use Rattle.tool_defaults.specs.KindCalls.{LeadsToConfig, NoConfigCause};
ghost use Rattle.tool_defaults.specs.Repository.{IsConfigOf, IsInGitFolder, IsKindInRepository, IsOutside, ReadsConfig};
ghost use Rattle.tool_defaults.specs.Repository.{ReadsText, common_beside};

use crate::config::format_of;
use crate::error::Error;
use crate::place::{path_in, text_of};
use gix_index::file::folder::{Folder, Standing};
use gix_index::hash::Kind;
use std::alloc::Global;
use std::io;
use std::io::ErrorKind;
use std::path::{Path, PathBuf};

/// Reads all bytes of the file at a path. Returns `None` if nothing is there.
fn text_at<D: Folder>(folder: &D, alloc: Global, path: Path<'_>) -> io::Result<Option<Vec<u8>>>
    ensures { ReadsText D.Folder folder.now path.entry result }
{
    match folder.open(path) {
        Ok(file) => Ok(Some(text_of(alloc, file)?)),
        Err(e) if e.kind() == ErrorKind::NotFound => Ok(None),
        Err(e) => Err(e),
    }
}

/// Returns the hash algorithm in the `config` at a path, as [`format_of`] reads it. Returns `None` if it names neither
/// algorithm, or isn't there.
pub(crate) fn format_at<D: Folder>(
    folder: &D,
    alloc: Global,
    path: Path<'_>,
) -> io::Result<Option<Kind>>
    ensures { ReadsConfig D.Folder folder.now path.entry result }
{
    match text_at(folder, alloc, path)? {
        Some(text) => Ok(format_of(&text)),
        None => Ok(None),
    }
}

/// Returns whether a file is in a repository's git directory, which is if `HEAD` is next to it, a file or a link.
pub(crate) fn is_in_git_folder<D: Folder>(
    folder: &D,
    alloc: Global,
    file: &PathBuf,
) -> Result<bool, Error>
    ensures inside { IfOk result
        (λ is. is ≡ true → IsInGitFolder (D.known folder.now) (path_buf_bytes file.now)) }
    ensures outside { IfOk result
        (λ is. is ≡ false → IsOutside (D.known folder.now) (path_buf_bytes file.now)) }
    ensures fault { IfErr result
        (KindCause (D.works folder.now) (D.known folder.now) (path_buf_bytes file.now)) }
{
    let head = file.with_file_name(alloc, "HEAD")?;
    match folder.look(head.as_path()) {
        Ok(Standing::File | Standing::Link) => Ok(true),
        Ok(Standing::Nothing | Standing::Folder | Standing::Special) => Ok(false),
        Err(e) => Err(Error::of(head, e)),
    }
}

/// Returns the path of the `config` in the directory that a `commondir` with this text names. A relative path is
/// relative to the file's directory. [`Error::NoCommonDir`] reports that the text has no path in UTF-8.
fn config_by_text(
    alloc: Global,
    file: &PathBuf,
    common: PathBuf,
    text: &[u8],
) -> Result<PathBuf, Error>
    requires { path_buf_bytes common ≡ common_beside (path_buf_bytes file.now) }
    ensures leads { IfOk result (LeadsToConfig (path_buf_bytes file.now) text.now) }
    ensures fault { IfErr result (NoConfigCause (path_buf_bytes file.now) text.now) }
{
    let Some(dir) = path_in(text) else {
        return Err(Error::NoCommonDir(common));
    };
    let Ok(dir) = str::from_utf8(dir) else {
        return Err(Error::NoCommonDir(common));
    };
    let mut config = file.with_file_name(alloc, dir)?;
    config.push("config")?;
    Ok(config)
}

/// Returns the path of the `config` that applies in the git directory of a file. This is the one next to the file. In a
/// linked work tree, it is the one in the repository's directory, which the file `commondir` names.
fn config_of<D: Folder>(folder: &D, alloc: Global, file: &PathBuf) -> Result<PathBuf, Error>
    requires inside { IsInGitFolder (D.known folder.now) (path_buf_bytes file.now) }
    ensures counts { IfOk result
        (λ config. IsConfigOf (D.known folder.now) (path_buf_bytes file.now) (path_buf_bytes config)) }
    ensures fault { IfErr result
        (KindCause (D.works folder.now) (D.known folder.now) (path_buf_bytes file.now)) }
{
    let common = file.with_file_name(alloc, "commondir")?;
    match text_at(folder, alloc, common.as_path()) {
        Ok(Some(text)) => config_by_text(alloc, file, common, &text),
        Ok(None) => Ok(file.with_file_name(alloc, "config")?),
        Err(e) => Err(Error::of(common, e)),
    }
}

/// Returns the hash algorithm of the ids of the repository in whose git directory a file is. It is the one in the
/// `config` that applies there, as [`format_of`] reads it, and SHA-1 if there is none.
///
/// # Errors
///
/// - [`Error::OtherKind`]: that `config` names neither algorithm.
/// - [`Error::NoCommonDir`]: `commondir` names no directory.
/// - [`Error::Io`] names which of them can't be read.
/// - [`Error::Memory`]: an allocation failed.
pub(crate) fn kind_in_repository<D: Folder>(
    folder: &D,
    alloc: Global,
    file: &PathBuf,
) -> Result<Kind, Error>
    requires inside { IsInGitFolder (D.known folder.now) (path_buf_bytes file.now) }
    ensures told { IfOk result
        (IsKindInRepository (D.known folder.now) (path_buf_bytes file.now)) }
    ensures fault { IfErr result
        (KindCause (D.works folder.now) (D.known folder.now) (path_buf_bytes file.now)) }
{
    let config = config_of(folder, alloc, file)?;
    match text_at(folder, alloc, config.as_path()) {
        Ok(Some(text)) => match format_of(&text) {
            Some(kind) => Ok(kind),
            None => Err(Error::OtherKind(config)),
        },
        Ok(None) => Ok(Kind::Sha1),
        Err(e) => Err(Error::of(config, e)),
    }
}
