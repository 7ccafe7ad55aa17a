//! Reading a bitmap (git's bitmap-format document, "Serialization format for an EWAH bitmap").

ghost use Rattle.std.specs.Prelude.{◌≡◌, ◌*◌, ℕ, List, length, IfOk, IfErr};
ghost use Rattle.ext_bitmap.specs.Bitmap.{bitmap, AreBitmapWords, IsBitmap, Lacks, BitmapCause};
ghost use Rattle.ext_bitmap.specs.declared.ewah.reading.Error.TheVariants.{Memory};

use super::Vec;
use index_parts::read;
use std::alloc::{AllocError, AllocFailed, Global};
use std::vec::Vec as Words;
use thiserror::Error;

/// Why decoding a bitmap failed: the bytes are no bitmap, or memory couldn't be allocated.
#[derive(Debug, Drop, Error)]
pub enum Error {
    /// The number of bits needs four bytes, and there are fewer.
    #[error("the bitmap ends within its number of bits")]
    NumBits,
    /// The number of words needs four bytes, and there are fewer after the number of bits.
    #[error("the bitmap ends within its number of words")]
    Length,
    /// There are fewer bytes than the declared words take, at eight bytes a word.
    #[error("the bitmap ends within its words")]
    Words,
    /// The position of the last run word needs four bytes, and there are fewer after the words.
    #[error("the bitmap ends within the position of its last run word")]
    LastRun,
    /// An allocation failed.
    #[error("out of memory while reading a bitmap")]
    Memory,
}

impl From<AllocError> for Error {
    ghost from_gives = { λ _ e. e ≡ Memory };

    fn from(_e: AllocError) -> Error {
        Error::Memory
    }
}

impl<T: Drop> From<AllocFailed<T>> for Error {
    ghost from_gives = { λ _ e. e ≡ Memory };

    fn from(_e: AllocFailed<T>) -> Error {
        Error::Memory
    }
}

/// The parts of an encoded bitmap, its words as bytes.
#[derive(Clone, Copy)]
struct Parts<'a> {
    num_bits: u32,
    len: u32,
    words: &'a [u8],
    rest: &'a [u8],
}

/// Returns the parts of the bitmap at the start of bytes. An error names the first part that isn't completely present.
fn parts_of(bytes: &[u8]) -> Result<Parts<'_>, Error>
    ensures found { IfOk result (λ p. (words : List ℕ) → AreBitmapWords p.words.now words
        → IsBitmap bytes.now (record { num_bits = p.num_bits; words = words }) p.rest.now) }
    ensures size { IfOk result (λ p. length p.words.now ≡ 8 * p.len) }
    ensures fault { IfErr result (λ e. Lacks e bytes.now) }
{
    let Some((num_bits, rest)) = read::u32(bytes) else {
        return Err(Error::NumBits);
    };
    let Some((len, rest)) = read::u32(rest) else {
        return Err(Error::Length);
    };
    let size = 8 * len as usize;
    if rest.len() < size {
        return Err(Error::Words);
    }
    let (words, rest) = rest.split_at(size);
    let Some((_, rest)) = read::u32(rest) else {
        return Err(Error::LastRun);
    };
    Ok(Parts {
        num_bits,
        len,
        words,
        rest,
    })
}

/// Returns the `len` words that bytes encode.
fn words_of(alloc: Global, len: u32, bytes: &[u8]) -> Result<Words<u64>, AllocError>
    requires { length bytes.now ≡ 8 * len }
    ensures { IfOk result (λ words. AreBitmapWords bytes.now words.items) }
{
    let mut words = Words::with_capacity(alloc, len as usize)?;
    let mut rest = bytes;
    while let Some((word, after)) = read::u64(rest) {
        words.push(word)?;
        rest = after;
    }
    Ok(words)
}

/// Decodes the bitmap at the start of `data`, and returns it with the bytes after it.
///
/// All numbers of a bitmap are big-endian. Its parts are:
///
/// 1. the number of bits (4 bytes);
/// 2. the number of words (4 bytes);
/// 3. the words (8 bytes each);
/// 4. the position of the last run word (4 bytes), which may be any number.
///
/// # Errors
///
/// An error names the first part that isn't completely present. [`Error::Memory`] occurs only if all parts are present,
/// because memory is allocated only then, and for the words alone.
pub fn decode(alloc: Global, data: &[u8]) -> Result<(Vec, &[u8]), Error>
    ensures found { IfOk result (λ x. IsBitmap «data».now (bitmap x.0) x.1.now) }
    ensures fault { IfErr result (λ e. BitmapCause e «data».now) }
{
    let parts = parts_of(data)?;
    let words = words_of(alloc, parts.len, parts.words)?;
    let bitmap = Vec {
        num_bits: parts.num_bits,
        words,
    };
    Ok((bitmap, parts.rest))
}
