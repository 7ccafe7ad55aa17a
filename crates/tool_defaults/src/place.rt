//! Which file the index is.

ghost use Rattle.std.specs.Prelude.{◌≡◌, IfErr, IfOk};
ghost use Rattle.std.specs.Option.{option_copied, option_map};
ghost use Rattle.std.specs.Path.{path_buf_bytes};
ghost use Rattle.std.specs.String.{string_bytes};
ghost use Rattle.gix_index.specs.Disk.World.{whole_of};
ghost use Rattle.tool_defaults.specs.Place.{MayBeOpened, gitdir_of, index_in, path_in, text_given, without_line_ends};
ghost use Rattle.tool_defaults.specs.PlaceFaults.{FindsIndex, IsSelectedIndex, IsUpward, LeadsByText, IndexPathCause};
ghost use Rattle.tool_defaults.specs.PlaceFaults.{SearchCause, GitTextCause};
ghost use Rattle.tool_defaults.specs.Repository.{ReadsWholeText};

use crate::error::Error;
use file_place::whole::{read_to_end, room_for};
use gix_index::file::folder::{Folder, Source, Standing};
use std::alloc::{AllocError, Global};
use std::io;
use std::io::ErrorKind;
use std::path::PathBuf;

/// What may name the index.
#[derive(Debug, Drop)]
pub struct Surroundings {
    /// The value of GIT_INDEX_FILE, if it is set.
    pub index_file: Option<String>,
    /// The value of GIT_DIR, if it is set.
    pub git_dir: Option<String>,
    /// The number of directories above the one in which the program runs.
    pub depth: usize,
}

/// Returns the text of a variable that is set and not empty.
fn non_empty(variable: &Option<String>) -> Option<&str>
    ensures { option_copied result ≡ text_given (option_map string_bytes variable.now) }
{
    match variable {
        Some(text) if !text.is_empty() => Some(text.as_str()),
        _ => None,
    }
}

/// Returns a text without the line ends at its end.
fn without_line_ends(text: &[u8]) -> &[u8]
    ensures { result.now ≡ without_line_ends text.now }
{
    let mut len = text.len();
    while len > 0 && matches!(text[len - 1], b'\n' | b'\r') {
        len -= 1;
    }
    &text[..len]
}

/// Reads all bytes of an open file, which is at its start.
pub(crate) fn text_of<S: Source>(alloc: Global, mut file: S) -> io::Result<Vec<u8>>
    requires { S.remaining file ≡ whole_of (S.stored file) }
    ensures { ReadsWholeText S.Source file result }
{
    let mut text = room_for(alloc, file.status()?)?;
    read_to_end(&mut file, &mut text)?;
    Ok(text)
}

/// Returns the path in a text: all of it without the line ends at its end. Returns `None` if nothing is left.
pub(crate) fn path_in(text: &[u8]) -> Option<&[u8]>
    ensures { option_copied result ≡ path_in text.now }
{
    let path = without_line_ends(text);
    if path.is_empty() {
        return None;
    }
    Some(path)
}

/// Returns the path in the text of a `.git` file.
fn gitdir_of(text: &[u8]) -> Option<&[u8]>
    ensures { option_copied result ≡ gitdir_of text.now }
{
    path_in(text.strip_prefix(b"gitdir: ")?)
}

/// Returns the path of the index in a git directory.
fn index_in(dir: PathBuf) -> Result<PathBuf, AllocError>
    ensures { IfOk result (λ index. path_buf_bytes index ≡ index_in (path_buf_bytes dir)) }
{
    let mut index = dir;
    index.push("index")?;
    Ok(index)
}

/// Returns the path of the index to which a `.git` file with this text leads. A relative path is relative to the file's
/// directory. [`Error::NoGitDir`] reports that the text has no path in UTF-8.
fn index_by_text(alloc: Global, git: PathBuf, text: &[u8]) -> Result<PathBuf, Error>
    ensures leads { IfOk result (LeadsByText (path_buf_bytes git) text.now) }
    ensures fault { IfErr result (GitTextCause (path_buf_bytes git) text.now) }
{
    let Some(dir) = gitdir_of(text) else {
        return Err(Error::NoGitDir(git));
    };
    let Ok(dir) = str::from_utf8(dir) else {
        return Err(Error::NoGitDir(git));
    };
    Ok(index_in(git.with_file_name(alloc, dir)?)?)
}

/// Returns the path of the index to which a `.git` leads that is a file or a link. Returns `None` if opening reports
/// that nothing is there.
fn index_by_opening<D: Folder>(
    folder: &D,
    alloc: Global,
    git: PathBuf,
) -> Result<Option<PathBuf>, Error>
    requires { MayBeOpened (D.known folder.now (path_buf_bytes git)) }
    ensures { FindsIndex D.Folder folder.now (path_buf_bytes git) result }
{
    let file = match folder.open(git.as_path()) {
        Ok(file) => file,
        Err(e) if e.kind() == ErrorKind::NotFound => return Ok(None),
        Err(e) => return Err(Error::of(git, e)),
    };
    match file.status() {
        Ok(status) if status.is_plain => {}
        Ok(_) => return Ok(Some(index_in(git)?)),
        Err(e) => return Err(Error::of(git, e)),
    }
    match text_of(alloc, file) {
        Ok(text) => Ok(Some(index_by_text(alloc, git, &text)?)),
        Err(e) => Err(Error::of(git, e)),
    }
}

/// Returns the path of the index to which the file or directory at `git` leads. Returns `None` if neither is there.
fn index_of<D: Folder>(folder: &D, alloc: Global, git: PathBuf) -> Result<Option<PathBuf>, Error>
    ensures { FindsIndex D.Folder folder.now (path_buf_bytes git) result }
{
    match folder.look(git.as_path()) {
        Ok(Standing::Folder) => Ok(Some(index_in(git)?)),
        Ok(Standing::File | Standing::Link) => index_by_opening(folder, alloc, git),
        Ok(Standing::Nothing | Standing::Special) => Ok(None),
        Err(e) => Err(Error::of(git, e)),
    }
}

/// Returns the path of the index to which the first `.git` leads, in this directory or in one of the `depth`
/// directories above it.
fn index_upward<D: Folder>(folder: &D, alloc: Global, depth: usize) -> Result<PathBuf, Error>
    ensures found { IfOk result (IsUpward D.Folder folder.now depth) }
    ensures fault { IfErr result (SearchCause (D.works folder.now) (D.known folder.now) depth) }
{
    let mut upward = String::new(alloc);
    let mut above = 0;
    loop {
        let mut git = upward.clone()?;
        git.push_str(".git")?;
        if let Some(index) = index_of(folder, alloc, PathBuf::from(git))? {
            return Ok(index);
        }
        if above == depth {
            return Err(Error::NoRepository);
        }
        above += 1;
        upward.push_str("../")?;
    }
}

/// Returns the path of the index that git reads if no file is named (git, "GIT_INDEX_FILE", "GIT_DIR";
/// gitrepository-layout). It is the first of these:
///
/// - the path in GIT_INDEX_FILE;
/// - `index` in the directory that GIT_DIR names;
/// - `index` in the git directory of the first directory, from this one upward, that has a `.git`.
///
/// An empty variable counts as not set. A `.git` is a git directory, or a file that names one. A symbolic link counts
/// as what it leads to. Whether an index is at the path isn't checked.
///
/// # Errors
///
/// - [`Error::NoRepository`]: no directory has a `.git`.
/// - [`Error::NoGitDir`] names a `.git` file that names no directory.
/// - [`Error::Io`] names a `.git` that can't be examined, opened or read.
/// - [`Error::Memory`]: an allocation failed.
pub fn index_path<D: Folder>(
    folder: &D,
    alloc: Global,
    around: &Surroundings,
) -> Result<String, Error>
    ensures found { IfOk result
        (IsSelectedIndex D.Folder folder.now around.now) }
    ensures fault { IfErr result
        (IndexPathCause (D.works folder.now) (D.known folder.now) around.now) }
{
    if let Some(file) = non_empty(&around.index_file) {
        return Ok(String::from_str(alloc, file)?);
    }
    let index = match non_empty(&around.git_dir) {
        Some(dir) => index_in(PathBuf::from_str(alloc, dir)?)?,
        None => index_upward(folder, alloc, around.depth)?,
    };
    Ok(index.into_string())
}
