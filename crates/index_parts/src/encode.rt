//! Encoding of numbers in a file's bytes.

ghost use Rattle.std.specs.Prelude.{◌≡◌, ◌≤◌, drop};
ghost use Rattle.index_parts.specs.Offset.{IsOffset, offset_bytes};

/// The length of the longest offset number (varint) of 64 bits, in bytes.
pub const MAX_OFFSET_LEN: usize = 10;

/// Returns the offset number (varint) that encodes `n` (gitformat-index, entries of version 4), at the end of the
/// array, and the index of its first byte.
///
/// The number has one encoding, of 1 to 10 bytes, which [`crate::read::offset`] reads.
pub fn offset(n: u64) -> ([u8; MAX_OFFSET_LEN], usize)
    ensures bytes { drop result.1 result.0 ≡ offset_bytes n }
    ensures place { result.1 ≤ 9 }
    ensures spelled { IsOffset (offset_bytes n) n }
{
    let mut bytes = [0; MAX_OFFSET_LEN];
    let mut start = MAX_OFFSET_LEN - 1;
    let mut higher = n;
    bytes[start] = (higher % 128) as u8;
    while higher >= 128 {
        higher = higher / 128 - 1;
        start -= 1;
        bytes[start] = 128 + (higher % 128) as u8;
    }
    (bytes, start)
}
