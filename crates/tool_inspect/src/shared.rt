//! The shared index next to a split index.

ghost use Rattle.std.specs.Path.{path_buf_bytes, path_bytes};
ghost use Rattle.std.specs.Prelude.{◌≡◌, IfOk};
ghost use Rattle.gix_index.specs.Disk.{shared_path};
ghost use Rattle.tool_inspect.specs.Calls.{AreBytesOf, FindsShared, IsSharedBeside, IsSharedOf};

use gix_index::entry::FileTime;
use gix_index::file::folder::Folder;
use gix_index::hash::{Kind, ObjectId};
use gix_index::{File, State, decode, file};
use std::alloc::{AllocError, Global};
use std::io::ErrorKind;
use std::path::{Path, PathBuf};

/// Returns the path of the shared index with this id, which is next to the file at `path`.
fn shared_path(alloc: Global, path: &str, id: ObjectId) -> Result<PathBuf, AllocError>
    ensures { IfOk result (λ shared. path_buf_bytes shared ≡ shared_path path.now id) }
{
    let file = PathBuf::from_str(alloc, path)?;
    file::shared_path(alloc, file.as_path(), &id)
}

/// Returns all bytes of the file at a path, or `None` if it can't be read. Allocation failure is the only error.
fn readable<D: Folder>(
    folder: &D,
    alloc: Global,
    path: Path<'_>,
) -> Result<Option<Vec<u8>>, AllocError>
    ensures { IfOk result (AreBytesOf (D.known folder.now (path_bytes path.entry))) }
{
    match file::bytes_at(folder, alloc, path) {
        Ok((bytes, _)) => Ok(Some(bytes)),
        Err(e) => {
            if e.kind() == ErrorKind::OutOfMemory {
                return Err(AllocError);
            }
            Ok(None)
        }
    }
}

/// Returns the index that the bytes of the file at a path hold, if its trailer is this id or null. Returns `None` if
/// the bytes are no such index. Allocation failure is the only error.
fn shared_in(
    alloc: Global,
    kind: Kind,
    bytes: &[u8],
    path: PathBuf,
    id: ObjectId,
) -> Result<Option<State>, AllocError>
    ensures { FindsShared (IsSharedOf kind id bytes.now) result }
{
    let options = decode::Options {
        expected_checksum: Some(id),
        ..decode::Options::default()
    };
    let time = FileTime::EPOCH;
    match File::decode(alloc, bytes, path, kind, false, time, options) {
        Ok(file) => Ok(Some(file.into_parts().0)),
        Err(file::init::Error::Memory) => Err(AllocError),
        Err(_) => Ok(None),
    }
}

/// Returns the shared index with the id `wanted`, from the directory of the file at a path. Its name there is
/// `sharedindex.` with the id in hexadecimal. Returns `None` if no id is wanted, or if the file can't be read as an
/// index with that id. Allocation failure is the only error.
pub fn shared_beside<D: Folder>(
    folder: &D,
    alloc: Global,
    kind: Kind,
    path: &str,
    wanted: Option<ObjectId>,
) -> Result<Option<State>, AllocError>
    ensures { FindsShared (IsSharedBeside (D.known folder.now) kind path.now wanted) result }
{
    let Some(id) = wanted else {
        return Ok(None);
    };
    let shared = shared_path(alloc, path, id)?;
    let Some(bytes) = readable(folder, alloc, shared.as_path())? else {
        return Ok(None);
    };
    shared_in(alloc, kind, &bytes, shared, id)
}
