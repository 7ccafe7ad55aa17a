//! The command `map-svg`.

ghost use Rattle.tool_inspect.specs.Mapping.{DrawsFile};

use crate::mapping::{division_at, finish};
use gix_index::file::folder::Folder;
use gix_index::hash::Kind;
use gix_index::hash::io::Out;
use std::alloc::Global;
use tool_errors::failure::Failure;
use view_layout::write_svg;

/// Writes a picture of the parts of a file, which may be damaged, to `out`.
///
/// On success the file can be read as an index, apart from a link that isn't followed, and `out` took the complete
/// picture.
///
/// # Errors
///
/// - [`Failure::Damaged`]: `out` took the complete picture. Its last part is everything from the first error on. The
///   failure has that error and its offset.
/// - [`Failure::Output`]: `out` took a prefix of the picture.
///
/// With any other failure `out` took nothing.
pub fn map_svg<'a, D: Folder, W: Out>(
    folder: &D,
    alloc: Global,
    kind: Kind,
    path: &'a str,
    out: &mut W,
) -> Result<(), Failure<'a>>
    ensures { DrawsFile D.Folder folder.now kind path.now W.Out out.old out.new result }
{
    let division = division_at(folder, alloc, kind, path)?;
    if let Err(e) = write_svg(alloc, &division.entries, &division.parts, out) {
        return Err(Failure::Output(e));
    }
    finish(path, division)
}
