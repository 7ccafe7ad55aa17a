//! Reads the bytes after the directory blocks.

ghost use Rattle.std.specs.Prelude.{◌≡◌, ◌<◌, ◌*◌, ◌==◌, ℕ, false, List, All, map, length, Ok, IsTrue, IfOk};
ghost use Rattle.std.specs.Prelude.{IfSome, IfNone};
ghost use Rattle.std.specs.List.{AllByRecursion, list_any};
ghost use Rattle.ext_bitmap.specs.Bitmap.{Bitmap, IsBitmap, bitmap};
ghost use Rattle.ext_bitmap.specs.Bits.{ListPlaces};
ghost use Rattle.index_parts.specs.Id.{id_len};
ghost use Rattle.ext_untracked.specs.Blocks.{DirectoryValue, directory_value};
ghost use Rattle.ext_untracked.specs.BitmapSteps.{changed_directory, with_stat, with_exclude, checked, last_at};
ghost use Rattle.ext_untracked.specs.BitmapSteps.{by_some, by_true, each, IsBare};
ghost use Rattle.ext_untracked.specs.CacheBitmaps.{DirectoryBitmaps as Places, ListsBelow, AreBitmaps, ArePieces};
ghost use Rattle.ext_untracked.specs.CacheBitmaps.{IsTail};
ghost use Rattle.ext_untracked.specs.CacheSteps.{own_bitmaps};

use super::Directory;
use super::stat::{SIZE, cached_stat};
use ext_bitmap::ewah;
use ext_bitmap::ewah::{Error, decode};
use index_parts::hash::{Kind, ObjectId};
use index_parts::read;
use std::alloc::{AllocError, Global};

/// The positions of the set bits of the three bitmaps.
#[derive(Drop)]
struct DirectoryBitmaps {
    valid: Vec<usize>,
    check_only: Vec<usize>,
    hash_valid: Vec<usize>,
}

/// Returns the positions of the set bits, or `None` if one of them isn't below `count` or the bitmap is malformed.
fn places_in(
    alloc: Global,
    count: usize,
    bitmaps: &ewah::Vec,
) -> Result<Option<Vec<usize>>, AllocError>
    ensures listed { IfOk result
        (λ found. IfSome found (λ v. ListPlaces (map Ok v.items) (bitmap bitmaps.now).words)) }
    ensures below { IfOk result (λ found. IfSome found (λ v. All (λ p. p < count) v.items)) }
    ensures none { IfOk result
        (λ found. IfNone found ((places : List ℕ)
        → ListPlaces (map Ok places) (bitmap bitmaps.now).words
        → All (λ place. place < count) places → ⊥)) }
{
    let mut places = Vec::new(alloc);
    let mut positions = bitmaps.positions();
    while let Some(position) = positions.next() {
        let Ok(place) = position else {
            return Ok(None);
        };
        if place >= count as u64 {
            return Ok(None);
        }
        places.push(place as usize)?;
    }
    Ok(Some(places))
}

/// Returns the bitmap at the start of bytes, and the bytes after it, or `None` if it is malformed.
fn bitmap_of(alloc: Global, bytes: &[u8]) -> Result<Option<(ewah::Vec, &[u8])>, AllocError>
    ensures found { IfOk result
        (λ found. IfSome found (λ x. IsBitmap bytes.now (bitmap x.0) x.1.now)) }
    ensures none { IfOk result
        (λ found. IfNone found ((b : Bitmap) (rest : List ℕ) → IsBitmap bytes.now b rest → ⊥)) }
{
    match decode(alloc, bytes) {
        Ok(found) => Ok(Some(found)),
        Err(error) => match error {
            Error::Memory => Err(AllocError),
            _ => Ok(None),
        },
    }
}

/// Returns the positions of the bitmap at the start of bytes, which is over `count` directories, and the bytes after
/// it.
fn places_of(
    alloc: Global,
    count: usize,
    bytes: &[u8],
) -> Result<Option<(Vec<usize>, &[u8])>, AllocError>
    ensures found { IfOk result
        (λ found. IfSome found (λ x. ListsBelow count bytes.now x.0.items x.1.now)) }
    ensures none { IfOk result
        (λ found. IfNone found ((places rest : List ℕ) → ListsBelow count bytes.now places rest
        → ⊥)) }
{
    let Some((bitmap, rest)) = bitmap_of(alloc, bytes)? else {
        return Ok(None);
    };
    if bitmap.num_bits() as usize > count {
        return Ok(None);
    }
    let Some(places) = places_in(alloc, count, &bitmap)? else {
        return Ok(None);
    };
    Ok(Some((places, rest)))
}

/// Returns the three bitmaps at the start of bytes, and the bytes after them.
fn bitmaps_of(
    alloc: Global,
    count: usize,
    bytes: &[u8],
) -> Result<Option<(DirectoryBitmaps, &[u8])>, AllocError>
    ensures found { IfOk result
        (λ found. IfSome found (λ x. AreBitmaps count bytes.now (own_bitmaps x.0) x.1.now)) }
    ensures none { IfOk result
        (λ found. IfNone found ((m : Places) (rest : List ℕ) → AreBitmaps count bytes.now m rest
        → ⊥)) }
{
    let Some((valid, rest)) = places_of(alloc, count, bytes)? else {
        return Ok(None);
    };
    let Some((check_only, rest)) = places_of(alloc, count, rest)? else {
        return Ok(None);
    };
    let Some((hash_valid, rest)) = places_of(alloc, count, rest)? else {
        return Ok(None);
    };
    let bitmaps = DirectoryBitmaps {
        valid,
        check_only,
        hash_valid,
    };
    Ok(Some((bitmaps, rest)))
}

/// Sets the stat of the directory at the index `place`.
fn set_stat(directories: &mut Vec<Directory>, place: usize, piece: &[u8])
    requires place { place < length directories.old.items }
    requires size { length piece.now ≡ 36 }
    ensures value { map directory_value directories.new.items
        ≡ changed_directory (with_stat piece.now) place
        (map directory_value directories.old.items) }
    ensures len { length directories.new.items ≡ length directories.old.items }
{
    let directory = &mut directories[place];
    directory.stat = Some(cached_stat(piece));
}

/// Sets the id of the directory at the index `place`.
fn set_exclude(directories: &mut Vec<Directory>, place: usize, kind: Kind, piece: &[u8])
    requires place { place < length directories.old.items }
    requires size { length piece.now ≡ id_len kind }
    ensures value { map directory_value directories.new.items
        ≡ changed_directory (with_exclude kind piece.now) place
        (map directory_value directories.old.items) }
    ensures len { length directories.new.items ≡ length directories.old.items }
{
    let directory = &mut directories[place];
    directory.exclude_file_oid = Some(ObjectId::of_kind(kind, piece));
}

/// Sets `check_only` of the directory at the index `place`.
fn set_check_only(directories: &mut Vec<Directory>, place: usize)
    requires place { place < length directories.old.items }
    ensures value { map directory_value directories.new.items
        ≡ changed_directory checked place (map directory_value directories.old.items) }
    ensures len { length directories.new.items ≡ length directories.old.items }
{
    let directory = &mut directories[place];
    directory.check_only = true;
}

/// Sets `check_only` of the directories at these indices.
fn check_each(directories: &mut Vec<Directory>, places: &[usize])
    requires { All (λ place. place < length directories.old.items) places.now }
    ensures value { map directory_value directories.new.items
        ≡ each (λ i. by_true checked (list_any (λ p. p == i) places.now))
        (map directory_value directories.old.items) }
    ensures len { length directories.new.items ≡ length directories.old.items }
{
    for place in places {
        set_check_only(directories, *place);
    }
}

/// Reads a stat for the directory at each of these indices, and returns the bytes after the stats.
fn read_stats<'a>(
    directories: &mut Vec<Directory>,
    places: &[usize],
    bytes: &'a [u8],
) -> Option<&'a [u8]>
    requires { All (λ place. place < length directories.old.items) places.now }
    ensures found { IfSome result (λ rest. (stats : List (List ℕ))
        × ArePieces 36 (length places.now) bytes.now stats rest.now
        × (map directory_value directories.new.items
        ≡ each (λ i. by_some with_stat (last_at places.now stats i))
        (map directory_value directories.old.items))) }
    ensures none { IfNone result (length bytes.now < 36 * length places.now) }
    ensures len { length directories.new.items ≡ length directories.old.items }
{
    let mut rest = bytes;
    for place in places {
        let (piece, after) = read::piece(rest, SIZE)?;
        set_stat(directories, *place, piece);
        rest = after;
    }
    Some(rest)
}

/// Reads an id for the directory at each of these indices, and returns the bytes after the ids.
fn read_excludes<'a>(
    directories: &mut Vec<Directory>,
    kind: Kind,
    places: &[usize],
    bytes: &'a [u8],
) -> Option<&'a [u8]>
    requires { All (λ place. place < length directories.old.items) places.now }
    ensures found { IfSome result (λ rest. (ids : List (List ℕ))
        × ArePieces (id_len kind) (length places.now) bytes.now ids rest.now
        × (map directory_value directories.new.items
        ≡ each (λ i. by_some (with_exclude kind) (last_at places.now ids i))
        (map directory_value directories.old.items))) }
    ensures none { IfNone result (length bytes.now < id_len kind * length places.now) }
    ensures len { length directories.new.items ≡ length directories.old.items }
{
    let len = kind.len_in_bytes();
    let mut rest = bytes;
    for place in places {
        let (piece, after) = read::piece(rest, len)?;
        set_exclude(directories, *place, kind, piece);
        rest = after;
    }
    Some(rest)
}

/// Reads the bytes after the blocks into these directories. It returns whether the bytes are complete, with one byte at
/// the end.
pub(super) fn read_bitmaps(
    alloc: Global,
    kind: Kind,
    bytes: &[u8],
    directories: &mut Vec<Directory>,
) -> Result<bool, AllocError>
    requires { AllByRecursion IsBare (map directory_value directories.old.items) }
    ensures whole { IfOk result (λ whole. IsTrue whole
        → IsTail kind (map directory_value directories.old.items) bytes.now
        (map directory_value directories.new.items)) }
    ensures torn { IfOk result (λ whole. whole ≡ false → (ds : List DirectoryValue)
        → IsTail kind (map directory_value directories.old.items) bytes.now ds → ⊥) }
{
    let Some((bitmaps, rest)) = bitmaps_of(alloc, directories.len(), bytes)? else {
        return Ok(false);
    };
    check_each(directories, &bitmaps.check_only);
    let Some(rest) = read_stats(directories, &bitmaps.valid, rest) else {
        return Ok(false);
    };
    let Some(rest) = read_excludes(directories, kind, &bitmaps.hash_valid, rest) else {
        return Ok(false);
    };
    Ok(rest.len() == 1)
}
