//! The command `list`.

ghost use Rattle.tool_edit.specs.Listing.{ListsIndex};

use base_text::lines::Lines;
use gix_index::decode::entry::EntrySlice;
use gix_index::file::folder::Folder;
use gix_index::hash::Kind;
use gix_index::hash::io::Out;
use std::alloc::Global;
use tool_errors::failure::Failure;
use tool_errors::index::index_at;
use tool_errors::nul::check_paths;
use view_list::write_listing;

/// Lists the index in a file: writes a line to `out` for each entry.
///
/// Nothing is written to `out` before the index was read completely, with the shared index that it links to. On success
/// `out` took the complete listing.
///
/// # Errors
///
/// With [`Failure::Output`] `out` took a prefix of the listing. With any other failure it took nothing.
/// [`Failure::NulInPath`] reports that with `-z` alone the lines can't show a path, as it has a NUL.
pub fn list<'a, D: Folder, W: Out>(
    folder: &D,
    alloc: Global,
    style: Lines,
    kind: Kind,
    path: &'a str,
    out: &mut W,
) -> Result<(), Failure<'a>>
    ensures { ListsIndex style D.Folder folder.now kind path.now W.Out out.old out.new result }
{
    let index = index_at(folder, alloc, kind, path)?;
    let entries = EntrySlice::new(index.entries(), index.path_backing());
    check_paths(style, &entries, path)?;
    match write_listing(alloc, &index, style, out) {
        Ok(()) => Ok(()),
        Err(e) => Err(Failure::Output(e)),
    }
}
