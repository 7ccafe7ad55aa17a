//! Numbers and pieces at the start of a file's bytes.
//!
//! All numbers are big-endian (gitformat-index). No call here allocates memory.

ghost use Rattle.std.specs.Prelude.{◌<◌, ℕ, List, length, IfSome, IfNone};
ghost use Rattle.index_parts.specs.Offset.{IsOffset, StartsWithOffset, offset_bytes};
ghost use Rattle.index_parts.specs.Numbers.{StartsWithNumber, IsUpTo};
ghost use Rattle.index_parts.specs.Puts.{Puts};

pub use crate::bytes::{from_be_u16, from_be_u32};
use crate::hash::io::Out;
use crate::{encode, read};
use std::io;

/// Returns the number of the first four bytes, and the bytes after them. None if there are fewer.
pub fn read_u32(data: &[u8]) -> Option<(u32, &[u8])>
    ensures found { IfSome result (λ x. StartsWithNumber 4 «data».now x.0 x.1.now) }
    ensures none { IfNone result (length «data».now < 4) }
{
    read::u32(data)
}

/// Returns the number of the first eight bytes, and the bytes after them. None if there are fewer.
pub fn read_u64(data: &[u8]) -> Option<(u64, &[u8])>
    ensures found { IfSome result (λ x. StartsWithNumber 8 «data».now x.0 x.1.now) }
    ensures none { IfNone result (length «data».now < 8) }
{
    read::u64(data)
}

/// Returns the bytes before the first byte of this value, and the bytes after it.
///
/// None if no byte has the value. None too if there are fewer than two bytes, even if the only byte has the value.
pub fn split_at_byte_exclusive(data: &[u8], byte: u8) -> Option<(&[u8], &[u8])>
    ensures found { IfSome result (λ x. IsUpTo byte «data».now x.0.now x.1.now) }
    ensures none { IfNone result ((piece rest : List ℕ) → IsUpTo byte «data».now piece rest → ⊥) }
{
    read::up_to(data, byte)
}

/// Returns the offset number (varint) at the start, and the bytes after it (gitformat-index, entries of version 4).
///
/// Each byte has seven bits, the highest first, and one is added before each further byte. Bit 7, the continuation bit,
/// is set in each byte except the last. None if the last byte is missing, or if the number has more than 64 bits.
pub fn var_int(data: &[u8]) -> Option<(u64, &[u8])>
    ensures found { IfSome result (λ x. StartsWithOffset «data».now x.0 x.1.now) }
    ensures none { IfNone result ((n : ℕ) (rest : List ℕ) → StartsWithOffset «data».now n rest
        → ⊥) }
{
    read::offset(data)
}

/// Writes the offset number (varint) that [`var_int`] reads as `n`, of 1 to 10 bytes, by one call of [`Out::put`]
/// (gitformat-index, entries of version 4).
///
/// An error is returned only if the writer failed. It then took a prefix of the bytes. No memory is allocated.
pub fn write_var_int<W: Out>(out: &mut W, n: u64) -> io::Result<()>
    ensures put { Puts W.Out out.old out.new result (offset_bytes n) }
    ensures spelled { IsOffset (offset_bytes n) n }
{
    let (bytes, start) = encode::offset(n);
    out.put(&bytes[start..])
}
