//! Iterates over extensions.

ghost use Rattle.std.specs.Prelude.{◌≡◌, ◌<◌, ◌++◌, List, ℕ, length, IfSome, IfNone};
ghost use Rattle.std.specs.Iterator.{at_most};
ghost use Rattle.std.specs.Option.{option_map};
ghost use Rattle.index_parts.specs.Id.{id_len};
ghost use Rattle.index_extensions.specs.WalkSteps.{item_at};
ghost use Rattle.index_extensions.specs.Walk.{Steps, cursor, unread};

use super::head::signature_of;
use super::{MIN_SIZE, Signature};
use index_parts::hash::Kind;
use index_parts::util::from_be_u32;

/// An iterator over the extensions at the start of bytes, as signature and content. Nothing is copied.
///
/// It ends if no complete extension follows. Fewer than eight bytes are then left unread. If a head's size exceeds the
/// rest, the head is counted as consumed, and the bytes after it aren't read.
#[derive(Drop)]
pub struct Iter<'a> {
    rest: &'a [u8],
    /// The number of bytes that were consumed, heads and contents, beginning with 0.
    pub consumed: usize,
}

impl<'a> Iter<'a> {
    /// Returns an iterator over bytes from the first extension on, without the trailer.
    pub fn new(data_at_beginning_of_extensions_and_truncated: &'a [u8]) -> Self
        ensures all { unread result ≡ data_at_beginning_of_extensions_and_truncated.now }
        ensures none_yet { result.consumed ≡ 0 }
    {
        Iter {
            rest: data_at_beginning_of_extensions_and_truncated,
            consumed: 0,
        }
    }

    /// Returns an iterator over bytes from the first extension to the end of the file, without the trailer of the hash
    /// algorithm `object_hash`. It returns `None` if there are fewer bytes than the trailer has.
    pub fn new_without_checksum(
        data_at_beginning_of_extensions: &'a [u8],
        object_hash: Kind,
    ) -> Option<Self>
        ensures all { IfSome result (λ i. (trailer : List ℕ)
            × (data_at_beginning_of_extensions.now ≡ unread i ++ trailer)
            × (length trailer ≡ id_len object_hash) × (i.consumed ≡ 0)) }
        ensures none { IfNone result
            (length data_at_beginning_of_extensions.now < id_len object_hash) }
    {
        let len = object_hash.len_in_bytes();
        if data_at_beginning_of_extensions.len() < len {
            return None;
        }
        let end = data_at_beginning_of_extensions.len() - len;
        let (extensions, _) = data_at_beginning_of_extensions.split_at(end);
        Some(Iter::new(extensions))
    }
}

impl<'a> Iterator for Iter<'a> {
    type Item = (Signature, &'a [u8]);

    ghost next_gives = { λ s r t. Steps (cursor s)
        (option_map (λ x. (x.0, x.1.now)) r) (cursor t) };

    ghost remaining = { λ s. at_most (length (unread s)) };

    fn next(&mut self) -> Option<(Signature, &'a [u8])> {
        if self.rest.len() < MIN_SIZE {
            return None;
        }
        self.consumed = self.consumed.wrapping_add(MIN_SIZE);
        let Some((signature, _, content, rest)) = item_of(self.rest) else {
            self.rest = &[];
            return None;
        };
        self.rest = rest;
        self.consumed = self.consumed.wrapping_add(content.len());
        Some((signature_of(signature), content))
    }
}

/// Returns the extension at the start of bytes: its signature, its encoded size, its content, and the bytes after it.
#[tactic(auto, unfolding(crate::specs::WalkSteps::item_at))]
pub(super) fn item_of(bytes: &[u8]) -> Option<(&[u8], &[u8], &[u8], &[u8])>
    ensures { option_map
        (λ x. (record { signature = x.0.now; size = x.1.now; content = x.2.now }, x.3.now)) result
        ≡ item_at bytes.now }
{
    let (signature, rest) = bytes.split_at_checked(4)?;
    let (size, rest) = rest.split_at_checked(4)?;
    let (content, rest) = rest.split_at_checked(from_be_u32(size) as usize)?;
    Some((signature, size, content, rest))
}
