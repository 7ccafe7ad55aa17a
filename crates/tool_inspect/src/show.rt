//! The commands `show` and `show-json`.

ghost use Rattle.tool_inspect.specs.Showing.{PutsShown, ReadsAlone, ShowsFile};

use ext_small::marks::{Marks, marks_of};
use gix_index::entry::FileTime;
use gix_index::file::folder::Folder;
use gix_index::file::{ReadOptions, Unfollowed};
use gix_index::hash::Kind;
use gix_index::hash::io::Out;
use gix_index::{File, decode};
use std::alloc::Global;
use std::io;
use tool_errors::failure::Failure;
use tool_errors::index::{failure_of, out_of_memory, path_at};
use view_json::write_json;
use view_show::write_show;

/// The index in a file, and the contents of the file's offset table (IEOT) and end marker (EOIE).
#[derive(Drop)]
pub struct Inspected {
    pub index: File,
    pub marks: Marks,
}

/// Returns what a file holds. Its link isn't followed.
///
/// # Errors
///
/// [`Failure::Read`] names a file that can't be opened or read. [`Failure::Index`] has any other error of the file, or
/// reports that an allocation failed.
pub fn inspect_at<'a, D: Folder>(
    folder: &D,
    alloc: Global,
    kind: Kind,
    path: &'a str,
) -> Result<Inspected, Failure<'a>>
    ensures { ReadsAlone D.Folder folder.now kind path.now result }
{
    let file = path_at(alloc, path)?;
    let reading = ReadOptions {
        object_hash: kind,
        skip_hash: false,
        timestamp: FileTime::EPOCH,
        options: decode::Options::default(),
    };
    let read = match File::unfollowed_at(folder, alloc, file, reading) {
        Ok(read) => read,
        Err(fault) => return Err(failure_of(path, fault)),
    };
    let Unfollowed { index, ending } = read;
    match marks_of(alloc, kind, &ending) {
        Ok(marks) => Ok(Inspected { index, marks }),
        Err(_) => Err(out_of_memory(path)),
    }
}

/// The format in which a file's content is printed.
#[derive(Clone, Copy, Debug, PartialEq, Eq)]
pub enum ShowFormat {
    /// Lines for people, as [`write_show`] writes them.
    Lines,
    /// One JSON object, as [`write_json`] writes it.
    Json,
}

/// Writes what was read of a file to `out`.
fn put_shown<W: Out>(
    alloc: Global,
    format: ShowFormat,
    told: &Inspected,
    out: &mut W,
) -> io::Result<()>
    ensures { PutsShown format told.now W.Out out.old out.new result }
{
    let (index, marks) = (&told.index, &told.marks);
    match format {
        ShowFormat::Lines => write_show(alloc, index, index.checksum(), marks, out),
        ShowFormat::Json => write_json(alloc, index, index.checksum(), marks, out),
    }
}

/// Writes what a file holds to `out`, in this format. Its link isn't followed.
///
/// Nothing is written to `out` before the file was read completely. On success `out` took the complete text.
///
/// # Errors
///
/// With [`Failure::Output`] `out` took a prefix of the text. With any other failure it took nothing.
pub fn show<'a, D: Folder, W: Out>(
    folder: &D,
    alloc: Global,
    format: ShowFormat,
    kind: Kind,
    path: &'a str,
    out: &mut W,
) -> Result<(), Failure<'a>>
    ensures { ShowsFile format D.Folder folder.now kind path.now W.Out out.old out.new result }
{
    let told = inspect_at(folder, alloc, kind, path)?;
    match put_shown(alloc, format, &told, out) {
        Ok(()) => Ok(()),
        Err(e) => Err(Failure::Output(e)),
    }
}
