//! The command `map`.

ghost use Rattle.tool_inspect.specs.Mapping.{MapsFile};

use crate::mapping::{division_at, finish};
use base_text::lines::Lines;
use gix_index::file::folder::Folder;
use gix_index::hash::Kind;
use gix_index::hash::io::Out;
use std::alloc::Global;
use tool_errors::failure::Failure;
use tool_errors::nul::check_paths;
use view_layout::write_map;

/// Writes a line to `out` for each part of a file, which may be damaged.
///
/// On success the file can be read as an index, apart from a link that isn't followed, and `out` took the complete map.
///
/// # Errors
///
/// - [`Failure::Damaged`]: `out` took the complete map. Its last part is everything from the first error on. The
///   failure has that error and its offset.
/// - [`Failure::Output`]: `out` took a prefix of the map.
/// - [`Failure::NulInPath`]: with `-z` alone the lines can't show a path, as it has a NUL. `out` took nothing.
///
/// With any other failure `out` took nothing.
pub fn map<'a, D: Folder, W: Out>(
    folder: &D,
    alloc: Global,
    style: Lines,
    kind: Kind,
    path: &'a str,
    out: &mut W,
) -> Result<(), Failure<'a>>
    ensures { MapsFile style D.Folder folder.now kind path.now W.Out out.old out.new result }
{
    let division = division_at(folder, alloc, kind, path)?;
    check_paths(style, &division.entries.as_slice(), path)?;
    if let Err(e) = write_map(alloc, &division.entries, &division.parts, style, out) {
        return Err(Failure::Output(e));
    }
    finish(path, division)
}
