//! The command `salvage`.

ghost use Rattle.std.specs.Prelude.{◌≡◌, Some};
ghost use Rattle.tool_inspect.specs.Calls.{GivesRemains, SalvagesFile, SavesBytes, SalvagesFileAt};
ghost use Rattle.tool_inspect.specs.Report.{around_fault_text, counts_text, fate_text, fault_place_text};
ghost use Rattle.tool_inspect.specs.Salvaging.{keep_of};

use crate::shared::shared_beside;
use gix_index::entry::FileTime;
use gix_index::file::OneLine;
use gix_index::file::folder::Folder;
use gix_index::hash::Kind;
use gix_index::{File, decode, file};
use std::alloc::Global;
use std::fmt;
use std::fmt::Write as _;
use std::path::PathBuf;
use tool_errors::failure::Failure;
use tool_errors::index::{headed_bytes_at, out_of_memory};
use tool_errors::storing::{commit_at, kept_options_as_read, lock_at};
use view_salvage::remains::{Error, FirstFault};
use view_salvage::{FirstUnfit, Keep, Remains, Salvaged, SharedEntries, remains_of};

/// How many entries a file declares, and how many of them are read and preserved.
#[derive(Clone, Copy, Debug, PartialEq, Eq)]
pub struct Counts {
    /// The number of entries that the file declares.
    pub declared: u32,
    /// The number of entries that were read, from the first on.
    pub read: usize,
    /// The number of entries that were preserved, including those of a shared index that they are merged with.
    pub kept: usize,
}

impl fmt::Display for Counts {
    ghost output = { λ counts. Some (counts_text counts) };

    fn fmt<W: fmt::Write>(&self, f: &mut fmt::Formatter<W>) -> fmt::Result {
        write!(
            f,
            "{} declared, {} read, {} kept",
            self.declared, self.read, self.kept
        )
    }
}

/// The offset of the first error of a file: the number of bytes before it.
#[derive(Clone, Copy)]
struct FaultPlace(usize);

impl fmt::Display for FaultPlace {
    ghost output = { λ place. Some (fault_place_text place.0) };

    fn fmt<W: fmt::Write>(&self, f: &mut fmt::Formatter<W>) -> fmt::Result {
        write!(f, "; first fault at {}", self.0)
    }
}

/// The number of entries before the first invalid one, and the number after it.
#[derive(Clone, Copy)]
struct AroundFault {
    before: usize,
    behind: usize,
}

impl fmt::Display for AroundFault {
    ghost output = { λ around. Some (around_fault_text around.before around.behind) };

    fn fmt<W: fmt::Write>(&self, f: &mut fmt::Formatter<W>) -> fmt::Result {
        write!(
            f,
            "; {} before the first entry at fault, {} behind it",
            self.before, self.behind
        )
    }
}

/// What became of the entries of a shared index, as the end of a line.
#[derive(Clone, Copy)]
struct Fate(SharedEntries);

impl fmt::Display for Fate {
    ghost output = { λ fate. Some (fate_text fate.0) };

    fn fmt<W: fmt::Write>(&self, f: &mut fmt::Formatter<W>) -> fmt::Result {
        match self.0 {
            SharedEntries::Unlinked => Ok(()),
            SharedEntries::Merged => f.write_str("; merged with the shared index"),
            SharedEntries::Missing => {
                f.write_str("; the entries of the shared index are missing")
            }
        }
    }
}

/// What was saved of a file, for the line that the command reports.
#[derive(Debug, Drop)]
pub struct Report<'a> {
    /// The file, as the command's argument names it.
    pub path: &'a str,
    /// How many entries the file declares, and how many of them were read and preserved.
    pub counts: Counts,
    /// The first invalid entry among those that were read, if there is one.
    pub first: Option<FirstUnfit>,
    /// The first error in the file, if there is one.
    pub fault: Option<FirstFault>,
    /// Whether the entries of the shared index that the file links to are included.
    pub shared: SharedEntries,
}

impl fmt::Display for Report<'_> {
    fn fmt<W: fmt::Write>(&self, f: &mut fmt::Formatter<W>) -> fmt::Result {
        write!(f, "{}: {}", OneLine(self.path), self.counts)?;
        if let Some(first) = &self.first {
            let (before, behind) = (first.before, first.behind);
            write!(f, "{}: {}", AroundFault { before, behind }, first.fault)?;
        }
        if let Some(fault) = &self.fault {
            write!(f, "{}: {}", FaultPlace(fault.offset), fault.error)?;
        }
        write!(f, "{}", Fate(self.shared))
    }
}

/// Returns what remains of a file with these bytes.
///
/// # Errors
///
/// [`Failure::Index`] has the error of a header that can't be read, or reports that an allocation failed.
fn remains_in<'a>(
    alloc: Global,
    kind: Kind,
    path: &'a str,
    bytes: &[u8],
) -> Result<Remains, Failure<'a>>
    ensures { GivesRemains kind bytes.now path.now result }
{
    match remains_of(alloc, kind, bytes) {
        Ok(remains) => Ok(remains),
        Err(Error::Header(e)) => {
            let fault = file::init::Error::Decode(decode::Error::Header(e));
            Err(Failure::Index { path, fault })
        }
        Err(Error::Memory) => Err(out_of_memory(path)),
    }
}

/// Returns which entries are preserved: all that are well formed, or those before the first invalid one.
fn keep_of(all: bool) -> Keep
    ensures { result ≡ keep_of all }
{
    if all { Keep::All } else { Keep::Front }
}

/// Returns what can be saved of a file with these bytes, and of the shared index next to it.
fn saved_of<'a, D: Folder>(
    folder: &D,
    alloc: Global,
    keep: Keep,
    kind: Kind,
    path: &'a str,
    bytes: &[u8],
) -> Result<Salvaged, Failure<'a>>
    ensures { SavesBytes D.Folder folder.now keep kind bytes.now path.now result }
{
    let remains = remains_in(alloc, kind, path, bytes)?;
    let Ok(shared) = shared_beside(folder, alloc, kind, path, remains.shared_index()) else {
        return Err(out_of_memory(path));
    };
    match remains.save(alloc, keep, shared) {
        Ok(saved) => Ok(saved),
        Err(_) => Err(out_of_memory(path)),
    }
}

/// Returns what can be saved of a file and of the shared index next to it, and the file's modification time.
fn saved_at<'a, D: Folder>(
    folder: &D,
    alloc: Global,
    keep: Keep,
    kind: Kind,
    path: &'a str,
) -> Result<(Salvaged, FileTime), Failure<'a>>
    ensures { SalvagesFileAt D.Folder folder.now keep kind path.now result }
{
    let (bytes, time) = headed_bytes_at(folder, alloc, kind, path)?;
    let saved = saved_of(folder, alloc, keep, kind, path, &bytes)?;
    Ok((saved, time))
}

/// Writes what can be saved of a file to another path or to the same path, and returns a report.
///
/// The file at the path `to` is locked before the other is opened, as git locks an index. [`remains_of`] and
/// [`Remains::save`] define what is saved, and git accepts it. The entries before the first invalid one are preserved,
/// or with `all` each that is well formed.
///
/// They are written as an index without extensions, in version 4 if the file that is read is in version 4. The index
/// gets that file's modification time, or else the time that [`commit_at`] gives it.
///
/// If a link to a shared index is read, the shared index is searched for next to the file. It is used if it can be read
/// as an index with the link's id and matches the file.
///
/// # Errors
///
/// - [`Failure::Index`]: the header can't be read, so nothing is saved, and the file isn't held in memory. Or an
///   allocation failed.
/// - [`Failure::Lock`], [`Failure::Rewrite`]: the file at `to` can't be written.
///
/// Any other failure concerns the file that is read. After a failure what was at the path `to` is there as before.
pub fn salvage<'a, D: Folder>(
    folder: &mut D,
    alloc: Global,
    all: bool,
    kind: Kind,
    path: &'a str,
    to: &'a str,
) -> Result<Report<'a>, Failure<'a>>
    ensures { SalvagesFile all D.Folder folder.old folder.new kind path.now to.now result }
{
    let lock = lock_at(folder, alloc, to)?;
    let (saved, time) = match saved_at(folder, alloc, keep_of(all), kind, path) {
        Ok(found) => found,
        Err(failure) => {
            lock.release(folder);
            return Err(failure);
        }
    };
    let counts = Counts {
        declared: saved.declared,
        read: saved.read,
        kept: saved.kept(),
    };
    let Salvaged {
        mut state,
        version,
        first,
        fault,
        shared,
        ..
    } = saved;
    state.set_timestamp(time);
    state.set_version(version);
    let index = File::from_state(state, PathBuf::new(alloc));
    let options = kept_options_as_read(version);
    commit_at(folder, alloc, index, lock, options, to)?;
    Ok(Report {
        path,
        counts,
        first,
        fault,
        shared,
    })
}
