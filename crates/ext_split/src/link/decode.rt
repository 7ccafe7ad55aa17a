//! Decodes a link.

ghost use Rattle.std.specs.Prelude.{◌<◌, length, IfOk, IfErr, IfSome, IfNone};
ghost use Rattle.ext_bitmap.specs.Bitmap.{bitmap, IsBitmap};
ghost use Rattle.index_parts.specs.Id.{id_len};
ghost use Rattle.ext_split.specs.Link.{IsLink, StartsWithId, LinkBitmapCause, LinkCause, link_of};

use super::{Bitmaps, Link};
use ext_bitmap::ewah;
use index_parts::hash::{Kind, ObjectId};
use std::alloc::Global;
use thiserror::Error;

/// Why a link's data, or the index that it links to, can't be used.
#[derive(Debug, Drop, Error)]
pub enum Error {
    /// The data is invalid. The text describes the error.
    #[error("{0}")]
    Corrupt(&'static str),
    /// A bitmap of positions couldn't be read.
    #[error("the {kind} bitmap of the link to a shared index can't be read, as {err}")]
    BitmapDecode {
        /// The error of reading the bitmap.
        err: ewah::Error,
        /// The name of the bitmap: `delete` or `replace`.
        kind: &'static str,
    },
    /// An allocation failed.
    #[error("out of memory while reading a link")]
    Memory,
}

/// Returns the id at the start of bytes, and the bytes after it. It returns `None` if there are fewer bytes than an id
/// has.
fn id_of(bytes: &[u8], kind: Kind) -> Option<(ObjectId, &[u8])>
    ensures found { IfSome result (λ x. StartsWithId kind bytes.now x.0 x.1.now) }
    ensures none { IfNone result (length bytes.now < id_len kind) }
{
    let len = kind.len_in_bytes();
    if bytes.len() < len {
        return None;
    }
    let (id, rest) = bytes.split_at(len);
    Some((ObjectId::of_kind(kind, id), rest))
}

/// Returns the bitmap at the start of bytes, and the bytes after it. An error has the name `kind`.
fn bitmap_of<'a>(
    alloc: Global,
    bytes: &'a [u8],
    kind: &'static str,
) -> Result<(ewah::Vec, &'a [u8]), Error>
    ensures found { IfOk result (λ x. IsBitmap bytes.now (bitmap x.0) x.1.now) }
    ensures fault { IfErr result (LinkBitmapCause kind.now bytes.now) }
{
    match ewah::decode(alloc, bytes) {
        Ok(found) => Ok(found),
        Err(ewah::Error::Memory) => Err(Error::Memory),
        Err(err) => Err(Error::BitmapDecode { err, kind }),
    }
}

/// Decodes a link from the content of its extension (gitformat-index, "Split index").
///
/// The content is the shared index's id, followed by nothing, or by the bitmaps of the entries that are deleted and
/// replaced there.
///
/// # Errors
///
/// The first error in the content is returned:
///
/// 1. [`Error::Corrupt`] if the id isn't complete.
/// 2. [`Error::BitmapDecode`] if one of the bitmaps can't be read.
/// 3. [`Error::Corrupt`] if bytes follow the bitmaps.
///
/// Memory is allocated only for a bitmap whose bytes are complete. So [`Error::Memory`] occurs only if the id and the
/// first bitmap are complete.
pub fn decode(alloc: Global, data: &[u8], object_hash: Kind) -> Result<Link, Error>
    ensures found { IfOk result (λ link. IsLink object_hash «data».now (link_of link)) }
    ensures fault { IfErr result (LinkCause object_hash «data».now) }
{
    let Some((shared_index_checksum, maps)) = id_of(data, object_hash) else {
        return Err(Error::Corrupt("link extension too short to read share index checksum"));
    };
    if maps.is_empty() {
        return Ok(Link {
            shared_index_checksum,
            bitmaps: None,
        });
    }
    let (delete, after) = bitmap_of(alloc, maps, "delete")?;
    let (replace, rest) = bitmap_of(alloc, after, "replace")?;
    if !rest.is_empty() {
        return Err(Error::Corrupt("garbage trailing link extension"));
    }
    Ok(Link {
        shared_index_checksum,
        bitmaps: Some(Bitmaps { delete, replace }),
    })
}
