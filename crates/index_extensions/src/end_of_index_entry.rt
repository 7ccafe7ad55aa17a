//! Reads and writes the end marker, which has the offset at which the extensions begin (gitformat-index, "End of Index
//! Entry").

ghost use Rattle.std.specs.Prelude.{◌≡◌, ◌≤◌, ◌+◌, ◌++◌, ℕ, length, codes, List, [], ◌∷◌, IfSome};
ghost use Rattle.std.specs.Prelude.{IfNone};
ghost use Rattle.std.specs.List.{flat_map};
ghost use Rattle.std.specs.Option.{option_map};
ghost use Rattle.index_parts.specs.Digest.{digest};
ghost use Rattle.index_parts.specs.Id.{id_bytes, id_len};
ghost use Rattle.index_parts.specs.Puts.{Puts};
ghost use Rattle.index_parts.specs.declared.hash.Kind.TheVariants.{Sha1};
ghost use Rattle.index_extensions.specs.EndMarker.{heads, EndsInMarker, IsMarker};
ghost use Rattle.index_extensions.specs.WalkSteps.{marker_at};
ghost use Rattle.index_extensions.specs.Encoding.{heads_bytes, item_bytes, marker_item};
ghost use Rattle.index_parts.specs.Numbers.{be32};
ghost use Rattle.index_extensions.specs.Walk.{Item, AreItems};

use super::Signature;
use super::iter::item_of;
use index_parts::hash::io::Out;
use index_parts::hash::{Hasher, Kind, ObjectId};
use index_parts::util::from_be_u32;
use std::io;

/// The signature of the extension.
pub const SIGNATURE: Signature = *b"EOIE";

/// The number of bytes of a marker's content with a SHA-1 digest: an offset of four bytes, and the digest.
pub const MIN_SIZE: usize = 24;

/// The number of bytes of a marker with a SHA-1 digest: the head of the extension, and its content.
pub const MIN_SIZE_WITH_HEADER: usize = super::MIN_SIZE + MIN_SIZE;

/// The number of bytes of a file's header. No extension begins before its end.
const HEADER_LEN: usize = 12;

/// The number of bytes of a marker and of the trailer after it.
const MARKER_AND_TRAILER: usize = MIN_SIZE_WITH_HEADER + 20;

/// The value of a marker, before it is compared with the extensions.
#[derive(Drop)]
struct Marker<'a> {
    offset: usize,
    /// The bytes from the offset to the marker.
    between: &'a [u8],
    hash: &'a [u8],
}

/// Returns the offset at which the extensions begin, from the marker in the last bytes before the trailer.
///
/// It returns `None` if there is no marker, or if its offset and digest don't match the extensions before it. In a file
/// of SHA-256 a marker is ignored.
///
/// A digest of the extensions' heads is computed only if the bytes begin like a marker. No memory is allocated.
pub fn decode(data: &[u8], object_hash: Kind) -> Option<usize>
    ensures { IsMarker object_hash «data».now result }
{
    decode_behind(0, data, object_hash)
}

/// Returns the offset at which the extensions begin, as [`decode`] does, from the end of a file. `rest` are its last
/// bytes, after `skipped` others.
///
/// It also returns `None` if the offset is within the skipped bytes.
pub fn decode_behind(skipped: usize, rest: &[u8], object_hash: Kind) -> Option<usize>
    ensures found { IfSome result (λ place. (before : List ℕ) → length before ≡ skipped
        → EndsInMarker object_hash (before ++ rest.now) place) }
    ensures none { IfNone result ((before : List ℕ) (place : ℕ) → length before ≡ skipped
        → skipped ≤ place → EndsInMarker object_hash (before ++ rest.now) place → ⊥) }
{
    if object_hash != Kind::Sha1 {
        return None;
    }
    let marker = marker_of(skipped, rest)?;
    let id = digest_of_heads(marker.between)?;
    if id.as_bytes() != marker.hash {
        return None;
    }
    Some(marker.offset)
}

/// Returns the marker before the trailer of a SHA-1 file, of which the first `skipped` bytes are missing.
#[tactic(auto, unfolding(crate::specs::WalkSteps::marker_at))]
fn marker_of(skipped: usize, bytes: &[u8]) -> Option<Marker<'_>>
    ensures { option_map (λ m. (m.offset, m.between.now, m.hash.now)) result
        ≡ marker_at skipped bytes.now }
{
    if bytes.len() < MARKER_AND_TRAILER {
        return None;
    }
    let (before, rest) = bytes.split_at(bytes.len() - MARKER_AND_TRAILER);
    let (start, rest) = rest.split_at(8);
    if !start.starts_with(b"EOIE\x00\x00\x00\x18") {
        return None;
    }
    let (offset, rest) = rest.split_at(4);
    let offset = from_be_u32(offset) as usize;
    if offset < HEADER_LEN {
        return None;
    }
    if offset < skipped {
        return None;
    }
    let (_, between) = before.split_at_checked(offset - skipped)?;
    let (hash, _) = rest.split_at(20);
    Some(Marker {
        offset,
        between,
        hash,
    })
}

/// Returns the SHA-1 digest of the signatures and sizes of extensions. It returns `None` if the bytes aren't one or
/// more complete extensions.
fn digest_of_heads(bytes: &[u8]) -> Option<ObjectId>
    ensures some { IfSome result (λ id. (first : Item) × (others : List Item)
        × AreItems bytes.now (first ∷ others) []
        × (id_bytes id ≡ digest Sha1 (heads (first ∷ others)))) }
    ensures none { IfNone result ((first : Item) (others : List Item)
        → AreItems bytes.now (first ∷ others) [] → ⊥) }
{
    let mut hasher = Hasher::new(Kind::Sha1);
    let mut rest = bytes;
    while let Some((signature, size, _, after)) = item_of(rest) {
        hasher.update(signature);
        hasher.update(size);
        rest = after;
    }
    if bytes.is_empty() || !rest.is_empty() {
        return None;
    }
    Some(hasher.finalize())
}

/// Returns the digest of signatures and sizes.
fn digest_of_pairs(object_hash: Kind, prior_extensions: &[(Signature, u32)]) -> ObjectId
    ensures { id_bytes result ≡ digest object_hash (heads_bytes prior_extensions.now) }
{
    let mut hasher = Hasher::new(object_hash);
    for (signature, size) in prior_extensions {
        hasher.update(signature);
        hasher.update(&size.to_be_bytes());
    }
    hasher.finalize()
}

/// Returns the twelve bytes before the digest of a marker.
fn before_digest(object_hash: Kind, offset: u32) -> [u8; 12]
    ensures { result ≡ codes "EOIE" ++ (be32 (4 + id_len object_hash) ++ be32 offset) }
{
    let [a, b, c, d] = (4 + object_hash.len_in_bytes() as u32).to_be_bytes();
    let [e, f, g, h] = offset.to_be_bytes();
    [b'E', b'O', b'I', b'E', a, b, c, d, e, f, g, h]
}

/// Returns a list of two pieces.
fn two<'a>(a: &'a [u8], b: &'a [u8]) -> [&'a [u8]; 2]
    ensures { flat_map (λ p. p.now) result ≡ a.now ++ b.now }
{
    [a, b]
}

/// Writes an end marker after extensions that begin at the offset `offset_to_extensions` (gitformat-index, "End of
/// Index Entry"). It allocates no memory.
///
/// `prior_extensions` has their signatures and sizes, and may be empty. An error occurs only if the writer failed,
/// which then took a prefix of the bytes.
pub fn write_to<W: Out>(
    out: &mut W,
    object_hash: Kind,
    offset_to_extensions: u32,
    prior_extensions: &[(Signature, u32)],
) -> io::Result<()>
    ensures { Puts W.Out out.old out.new result
        (item_bytes (marker_item object_hash offset_to_extensions
        (heads_bytes prior_extensions.now))) }
{
    let id = digest_of_pairs(object_hash, prior_extensions);
    let start = before_digest(object_hash, offset_to_extensions);
    let pieces = two(&start, id.as_bytes());
    out.put_each(&pieces)
}
