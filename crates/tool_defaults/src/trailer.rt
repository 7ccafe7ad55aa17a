//! Which hash algorithm the ids of an index have, by its trailer.

ghost use Rattle.std.specs.Prelude.{◌↔◌, IsTrue};
ghost use Rattle.tool_defaults.specs.Digests.{ComparesDigest, EndsWithDigest, IsKindOf, ReadsFew, ReadsTrailer};

use file_place::pieces::fill;
use file_windows::WINDOW_LEN;
use file_windows::disk::read_hashed;
use gix_index::file::folder::Source;
use gix_index::hash::{Kind, digest};
use std::alloc::Global;
use std::io;

/// The greatest number of bytes of a file that is held in memory. Both checksums are computed of what is held.
const FEW: usize = 1_048_576;

/// Returns whether the last bytes are the checksum of all before them. They are as many as an id of this algorithm has.
fn ends_with_digest(kind: Kind, bytes: &[u8]) -> bool
    ensures { IsTrue result ↔ EndsWithDigest kind bytes.now }
{
    let len = kind.len_in_bytes();
    if bytes.len() < len {
        return false;
    }
    let (checked, trailer) = bytes.split_at(bytes.len() - len);
    digest(kind, checked).as_bytes() == trailer
}

/// Returns the hash algorithm of an index with these bytes, by its trailer. The trailer is the checksum by it of all
/// bytes before (gitformat-index, "Hash checksum over the content of the index file before this checksum"). Returns
/// `None` if it is neither SHA-1 nor SHA-256, as in a damaged file, or if it is null.
fn kind_of(bytes: &[u8]) -> Option<Kind>
    ensures { IsKindOf bytes.now result }
{
    if ends_with_digest(Kind::Sha1, bytes) {
        Some(Kind::Sha1)
    } else if ends_with_digest(Kind::Sha256, bytes) {
        Some(Kind::Sha256)
    } else {
        None
    }
}

/// Returns all bytes of an open file, if they are at most [`FEW`].
fn few_bytes<S: Source>(alloc: Global, file: &mut S) -> io::Result<Option<Vec<u8>>>
    ensures { ReadsFew S.Source file.old file.new result }
{
    let len = file.status()?.len;
    if len > FEW as u64 {
        return Ok(None);
    }
    file.go_to(0)?;
    let mut bytes = Vec::with_capacity(alloc, len as usize + 1)?;
    fill(file, &mut bytes, FEW + 1)?;
    if bytes.len() > FEW {
        return Ok(None);
    }
    Ok(Some(bytes))
}

/// Returns whether the trailer of an open file is the checksum by this algorithm of all bytes before it. The file is
/// read from its start in pieces, and no more than one piece is held.
fn is_digest_of<S: Source>(alloc: Global, file: &mut S, kind: Kind) -> io::Result<bool>
    ensures { ComparesDigest S.Source file.old file.new kind result }
{
    file.go_to(0)?;
    let mut window = Vec::with_capacity(alloc, WINDOW_LEN)?;
    let digest = read_hashed(file, kind, false, &mut window)?;
    Ok(digest.as_bytes() == window.as_slice())
}

/// Returns the hash algorithm of the index in an open file by its trailer, as [`kind_of`] does. A file of at most
/// [`FEW`] bytes is read once. A longer one is read a second time if its trailer is no SHA-1 checksum.
pub(crate) fn kind_of_file<S: Source>(alloc: Global, file: &mut S) -> io::Result<Option<Kind>>
    ensures { ReadsTrailer S.Source file.old result }
{
    if let Some(bytes) = few_bytes(alloc, file)? {
        return Ok(kind_of(&bytes));
    }
    if is_digest_of(alloc, file, Kind::Sha1)? {
        return Ok(Some(Kind::Sha1));
    }
    if is_digest_of(alloc, file, Kind::Sha256)? {
        return Ok(Some(Kind::Sha256));
    }
    Ok(None)
}
