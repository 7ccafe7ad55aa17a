//! Following symbolic links to a file.

ghost use Rattle.std.specs.Path.{path_buf_bytes, path_bytes};
ghost use Rattle.file_place.specs.Folders.{FindsTarget, FollowsLink};

use crate::folder::{Folder, Standing};
use crate::lock::Error;
use std::alloc::Global;
use std::io;
use std::path::{Path, PathBuf};

/// The number of links that are followed, one after another. Git follows as many to an index.
const MAX_LINKS: u32 = 5;

/// Returns the target of the link at the path `link`. A relative target is resolved in the directory of the link.
fn follow_link<D: Folder>(folder: &D, alloc: Global, link: Path<'_>) -> io::Result<PathBuf>
    ensures { FollowsLink D.Folder folder.now (path_bytes link.entry) result }
{
    let to = folder.read_link(alloc, link)?;
    Ok(link.with_file_name(alloc, to.as_path().as_str())?)
}

/// Returns the path of the file that `path` leads to by at most five symbolic links. Returns `path` itself if nothing
/// is there.
///
/// [`Error::IsFolder`] and [`Error::IsSpecial`] name what is there and isn't a regular file. [`Error::LeadsNowhere`]
/// and [`Error::TooManyLinks`] name `path`. [`Error::Io`] names the path that can't be examined.
pub(super) fn target_of<D: Folder>(
    folder: &D,
    alloc: Global,
    path: PathBuf,
) -> Result<PathBuf, Error>
    ensures { FindsTarget D.Folder folder.now (path_buf_bytes path) result }
{
    let mut target = path.clone()?;
    for links in 0..MAX_LINKS + 1 {
        match folder.look(target.as_path()) {
            Ok(Standing::File) => return Ok(target),
            Ok(Standing::Nothing) if links == 0 => return Ok(target),
            Ok(Standing::Nothing) => return Err(Error::LeadsNowhere(path)),
            Ok(Standing::Folder) => return Err(Error::IsFolder(target)),
            Ok(Standing::Special) => return Err(Error::IsSpecial(target)),
            Ok(Standing::Link) => match follow_link(folder, alloc, target.as_path()) {
                Ok(next) => target = next,
                Err(e) => return Err(Error::of(target, e)),
            },
            Err(e) => return Err(Error::of(target, e)),
        }
    }
    Err(Error::TooManyLinks(path))
}
