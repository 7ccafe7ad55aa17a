//! Reading all bytes of a file.

ghost use Rattle.std.specs.Prelude.{◌≡◌, ◌≤◌, [], IfErr, IfOk};
ghost use Rattle.std.specs.IoError.{error_kind};
ghost use Rattle.file_place.specs.Folders.{ReadsBytesAt};
ghost use Rattle.file_place.specs.Sizes.{IsRoomFault, max_len};
ghost use Rattle.file_place.specs.Sources.{ReadsToEnd};

use crate::folder::{Folder, Source, Status};
use crate::pieces::fill;
use entry_fields::entry::FileTime;
use std::alloc::Global;
use std::io;
use std::io::ErrorKind;
use std::path::Path;

/// The maximum length of an index file in bytes: 2^32 plus a trailer of SHA-256.
pub const MAX_LEN: u64 = 4_294_967_328;

/// Returns the error for a file that is longer than an index can be.
pub fn too_long() -> io::Error
    ensures { error_kind result ≡ ErrorKind.FileTooLarge }
{
    let why = "it is longer than the 4294967328 bytes that an index has at most";
    io::Error::new(ErrorKind::FileTooLarge, why)
}

/// Returns an empty vector with capacity for the length in `status`.
pub fn room_for(alloc: Global, status: Status) -> io::Result<Vec<u8>>
    ensures room { IfOk result (λ room. room.items ≡ []) }
    ensures bound { IfOk result (λ _. status.len ≤ max_len) }
    ensures fault { IfErr result (IsRoomFault status.len) }
{
    let len = status.len;
    if len > MAX_LEN {
        return Err(too_long());
    }
    Ok(Vec::with_capacity(alloc, len as usize + 1)?)
}

/// Reads `file` to its end into `bytes`, which is empty. Fails if there are more than [`MAX_LEN`] bytes.
pub fn read_to_end<S: Source>(file: &mut S, bytes: &mut Vec<u8>) -> io::Result<()>
    requires { bytes.old.items ≡ [] }
    ensures { ReadsToEnd S.Source file.old file.new bytes.new.items result }
{
    let most = MAX_LEN as usize;
    fill(file, bytes, most + 1)?;
    if bytes.len() > most {
        return Err(too_long());
    }
    Ok(())
}

/// Returns all bytes of the file at `path`, and the time of its last change. The vector is allocated for the length
/// that the file's status reports.
pub fn bytes_at<D: Folder>(
    folder: &D,
    alloc: Global,
    path: Path<'_>,
) -> io::Result<(Vec<u8>, FileTime)>
    ensures { ReadsBytesAt D.Folder folder.now path.entry result }
{
    let mut file = folder.open(path)?;
    let status = file.status()?;
    let mut bytes = room_for(alloc, status)?;
    read_to_end(&mut file, &mut bytes)?;
    Ok((bytes, status.modified))
}
