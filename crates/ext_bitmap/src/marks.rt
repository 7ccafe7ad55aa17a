//! Writes bitmaps of the marked items of a list.

ghost use Rattle.std.specs.Prelude.{◌≡◌, ◌+◌, ◌*◌, ◌^◌, ◌<◌, ◌≤◌, Bool, IfOk, length, map};
ghost use Rattle.ext_bitmap.specs.Bitmap.{bitmap};
ghost use Rattle.ext_bitmap.specs.BitmapImage.{bitmap_bytes};
ghost use Rattle.ext_bitmap.specs.EncodedBitmap.{encoded, up_to_last, word_of, words_of};
ghost use Rattle.index_parts.specs.Puts.{Puts};

use crate::encoding::Words;
use crate::{encoding, ewah};
use index_parts::hash::io::{Out, Plain};
use std::alloc::{AllocError, Global};
use std::io;

/// A function from items to bits.
pub trait Marker<T>: Copy + Drop {
    // the item has its bit set
    ghost is_marked: { Self → T → Bool };

    /// Returns whether the bit of an item is set.
    fn has_bit(&self, item: &T) -> bool
        ensures { result ≡ is_marked self.now item.now };
}

/// The marker of a list of bits: each item is its own bit.
#[derive(Clone, Copy)]
pub struct Itself;

impl Marker<bool> for Itself {
    ghost is_marked = { λ _ bit. bit };

    fn has_bit(&self, item: &bool) -> bool {
        *item
    }
}

/// The bits of items, as the words of a bitmap.
#[derive(Drop)]
struct Marks<'a, T, M> {
    items: &'a [T],
    marker: M,
    ghost few: { length items.now < 2 ^ 32 },
}

/// The number of bits of a word.
const WORD_BITS: usize = 64;

/// Returns the items up to the last one whose bit is set.
fn up_to_last<'a, T, M: Marker<T>>(items: &'a [T], marker: &M) -> &'a [T]
    ensures kept { map (M.is_marked marker.now) result.now
        ≡ up_to_last (map (M.is_marked marker.now) items.now) }
    ensures few { length result.now ≤ length items.now }
{
    let mut rest = items;
    while let Some((last, before)) = rest.split_last() {
        if marker.has_bit(last) {
            return rest;
        }
        rest = before;
    }
    rest
}

/// Returns the bits of at most 64 items as a word.
fn word_of<T, M: Marker<T>>(items: &[T], marker: &M) -> u64
    requires { length items.now ≤ 64 }
    ensures { result ≡ word_of (map (M.is_marked marker.now) items.now) }
{
    let mut word = 0;
    let mut place = items.len();
    while place > 0 {
        place -= 1;
        word = 2 * word + u64::from(marker.has_bit(&items[place]));
    }
    word
}

impl<'a, T, M: Marker<T>> Marks<'a, T, M> {
    /// Returns the bits of items, up to the last one that is set.
    fn new(items: &'a [T], marker: M) -> Marks<'a, T, M>
        requires { length items.now < 2 ^ 32 }
        ensures bits { map (M.is_marked result.marker) result.items.now
            ≡ up_to_last (map (M.is_marked marker) items.now) }
    {
        Marks {
            items: up_to_last(items, &marker),
            marker,
        }
    }

    /// Returns the number of bits.
    fn num_bits(&self) -> u32
        ensures { result ≡ length (map (M.is_marked self.now.marker) self.now.items.now) }
    {
        self.items.len() as u32
    }
}

impl<T, M: Marker<T>> Words for Marks<'_, T, M> {
    ghost words = { λ m. words_of (map (M.is_marked m.marker) m.items.now) };

    fn count(&self) -> usize {
        self.items.len().div_ceil(WORD_BITS)
    }

    fn word(&self, place: usize) -> u64 {
        let (_, rest) = self.items.split_at(WORD_BITS * place);
        let (bits, _) = rest.split_at(WORD_BITS.min(rest.len()));
        word_of(bits, &self.marker)
    }
}

/// Returns the length in bytes of the bitmap that [`put`] writes for these items. It allocates no memory.
pub fn content_len<T, M: Marker<T>>(items: &[T], marker: M) -> u64
    requires { length items.now < 2 ^ 32 }
    ensures len { result
        ≡ length (bitmap_bytes (encoded (map (M.is_marked marker) items.now))) }
    ensures fits { result < 2 ^ 36 }
{
    encoding::content_len(&Marks::new(items, marker))
}

/// Writes the bitmap that git's encoder makes of the bits of these items. It allocates no memory.
///
/// An error occurs only if the writer failed, which then took a prefix of the bytes.
pub fn put<T, M: Marker<T>, W: Out>(items: &[T], marker: M, out: &mut W) -> io::Result<()>
    requires few { length items.now < 2 ^ 32 }
    ensures written { Puts W.Out out.old out.new result
        (bitmap_bytes (encoded (map (M.is_marked marker) items.now))) }
{
    let marks = Marks::new(items, marker);
    encoding::put(marks.num_bits(), &marks, out)
}

/// Returns the bitmap that git's encoder makes of bits. An error means that memory couldn't be allocated.
pub fn bitmap_of(alloc: Global, bits: &[bool]) -> Result<ewah::Vec, AllocError>
    requires { length bits.now < 2 ^ 32 }
    ensures { IfOk result (λ made. bitmap made ≡ encoded bits.now) }
{
    let mut bytes = Plain::new(Vec::new(alloc));
    let Ok(()) = put(bits, Itself, &mut bytes) else {
        return Err(AllocError);
    };
    let Ok((made, _)) = ewah::decode(alloc, &bytes.inner) else {
        return Err(AllocError);
    };
    Ok(made)
}
