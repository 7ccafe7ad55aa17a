//! Writes a bitmap in its own words (git's bitmap-format document, "Serialization format for an EWAH bitmap").

ghost use Rattle.std.specs.Prelude.{◌≡◌, ◌+◌, ◌*◌, ◌^◌, ◌<◌, length};
ghost use Rattle.std.specs.List.{flat_map};
ghost use Rattle.index_parts.specs.Numbers.{within_32};
ghost use Rattle.ext_bitmap.specs.Bitmap.{bitmap};
ghost use Rattle.index_parts.specs.Puts.{Puts};
ghost use Rattle.ext_bitmap.specs.BitmapImage.{be64, bitmap_bytes, last_run, borrowed_bitmap};

use crate::ewah;
use crate::pieces::{put_number, put_word};
use index_parts::hash::io::Out;
use std::io;

/// The compressed form of a bitmap, with borrowed words.
#[derive(Clone, Copy, Debug)]
pub struct BorrowedVec<'a> {
    /// The number of bits that the bitmap declares.
    num_bits: u32,
    /// The words of the compressed form.
    words: &'a [u64],
}

/// Returns the bitmap `map` with borrowed words.
pub fn borrow_words(map: &ewah::Vec) -> BorrowedVec<'_>
    ensures { borrowed_bitmap result ≡ bitmap map.now }
{
    BorrowedVec {
        num_bits: map.num_bits(),
        words: map.words(),
    }
}

/// The number of bytes of a bitmap without its words: the number of bits, the number of words, and the position of the
/// last run word.
pub const WORDLESS_LEN: u64 = 12;

/// The number of bytes of a word.
pub const WORD_LEN: u64 = 8;

/// The number of bits of a run word below its count of literal words: the repeated bit, and the number of repetitions.
const LITERALS_SHIFT: u32 = 33;

/// Writes words, eight bytes each.
fn put_words<W: Out>(words: &[u64], out: &mut W) -> io::Result<()>
    ensures { Puts W.Out out.old out.new result (flat_map be64 words.now) }
{
    for word in words {
        put_word(*word, out)?;
    }
    Ok(())
}

/// Returns the position of the last run word. It takes a step for each run word.
fn last_run(words: &[u64]) -> u32
    requires { length words.now < 2 ^ 32 }
    ensures { result ≡ last_run words.now }
{
    let mut place = 0;
    let mut rest = words;
    while let Some((run_word, behind)) = rest.split_first() {
        let literals = *run_word >> LITERALS_SHIFT;
        if behind.len() as u64 <= literals {
            break;
        }
        let (_, after) = behind.split_at(literals as usize);
        rest = after;
        place += 1 + literals as u32;
    }
    place
}

/// Returns the length in bytes of a bitmap, or `None` if it is more than 2^32 - 1. It allocates no memory.
pub fn content_len(bitmap: BorrowedVec<'_>) -> Option<u32>
    ensures { result ≡ within_32 (length (bitmap_bytes (borrowed_bitmap bitmap.entry))) }
{
    let count = bitmap.words.len() as u64;
    if count > u64::from(u32::MAX) {
        return None;
    }
    let len = WORDLESS_LEN + WORD_LEN * count;
    if len > u64::from(u32::MAX) {
        return None;
    }
    Some(len as u32)
}

/// Writes a bitmap in its own words, of which there are fewer than 2^32. It allocates no memory.
///
/// The bytes are the number of bits, the number of words, the words, and the position of the last run word. An error
/// occurs only if the writer failed, which then took a prefix of the bytes.
pub fn put<W: Out>(bitmap: BorrowedVec<'_>, out: &mut W) -> io::Result<()>
    requires count { length bitmap.words.now < 2 ^ 32 }
    ensures written { Puts W.Out out.old out.new result
        (bitmap_bytes (borrowed_bitmap bitmap.entry)) }
{
    let words = bitmap.words;
    put_number(bitmap.num_bits, out)?;
    put_number(words.len() as u32, out)?;
    put_words(words, out)?;
    put_number(last_run(words), out)
}
