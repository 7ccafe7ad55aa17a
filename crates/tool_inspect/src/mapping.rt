//! The parts of a file that `map` and `map-svg` print, and how these commands end.

ghost use Rattle.std.specs.Prelude.{IfOk};
ghost use Rattle.gix_index.specs.Disk.{MayHave};
ghost use Rattle.gix_index.specs.Disk.World.{Known};
ghost use Rattle.tool_inspect.specs.Dividing.{DividesFile, EndsAsDivided, IsDivisionOfFile};
ghost use Rattle.file_windows.specs.Counted.{IsCountedFile};

use file_windows::disk::CountedFile;
use gix_index::file::folder::Folder;
use gix_index::hash::Kind;
use std::alloc::{AllocError, Global};
use tool_errors::failure::Failure;
use tool_errors::index::{counted_at, out_of_memory};
use view_salvage::remains::last_begin;
use view_salvage::{Division, divide, headless};

/// Returns the parts of a file that is held in memory, or whose bytes were counted.
fn division_of(alloc: Global, kind: Kind, file: CountedFile) -> Result<Division, AllocError>
    ensures { IfOk result (λ d. (known : Known) → IsCountedFile kind (MayHave known) file
        → IsDivisionOfFile known kind d) }
{
    match file {
        CountedFile::Held(bytes) => divide(alloc, kind, &bytes),
        CountedFile::Headless(len, fault) => headless(alloc, len as usize, fault),
    }
}

/// Returns the parts of a file, which may be damaged. If its first bytes are no header, the file isn't held in memory.
pub(super) fn division_at<'a, D: Folder>(
    folder: &D,
    alloc: Global,
    kind: Kind,
    path: &'a str,
) -> Result<Division, Failure<'a>>
    ensures { DividesFile D.Folder folder.now kind path.now result }
{
    let file = counted_at(folder, alloc, kind, path)?;
    match division_of(alloc, kind, file) {
        Ok(division) => Ok(division),
        Err(_) => Err(out_of_memory(path)),
    }
}

/// Returns how a command ends that has printed all parts of the file at a path. If the file has an error, this is
/// [`Failure::Damaged`] with the first error and the offset of the last part.
pub(super) fn finish(path: &str, division: Division) -> Result<(), Failure<'_>>
    ensures { EndsAsDivided path.now division result }
{
    let offset = last_begin(&division.parts);
    match division.fault {
        None => Ok(()),
        Some(fault) => Err(Failure::Damaged {
            path,
            offset,
            fault,
        }),
    }
}
