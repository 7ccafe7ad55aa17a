//! Values of byte strings of a known length: big-endian numbers, and zeros.

ghost use Rattle.std.specs.Int.{to_be_bytes, w64};
ghost use Rattle.std.specs.Prelude.{◌≡◌, ◌≤◌, ◌+◌, drop, length, take};
ghost use Rattle.index_parts.specs.Id.{is_null};
ghost use Rattle.index_parts.specs.Numbers.{be};

/// Returns the number that two bytes encode, the high byte first.
pub fn from_be_u16(bytes: &[u8]) -> u16
    requires { length bytes.now ≡ 2 }
    ensures { result ≡ be bytes.now }
{
    u16::from_be_bytes([bytes[0], bytes[1]])
}

/// Returns the number that four bytes encode, the highest byte first.
pub fn from_be_u32(bytes: &[u8]) -> u32
    requires { length bytes.now ≡ 4 }
    ensures { result ≡ be bytes.now }
{
    u32::from_be_bytes([bytes[0], bytes[1], bytes[2], bytes[3]])
}

/// Returns the number that eight bytes encode, the highest byte first.
pub fn from_be_u64(bytes: &[u8]) -> u64
    requires { length bytes.now ≡ 8 }
    ensures { result ≡ be bytes.now }
{
    u64::from_be_bytes([
        bytes[0], bytes[1], bytes[2], bytes[3], bytes[4], bytes[5], bytes[6], bytes[7],
    ])
}

/// The number of bytes that [`word_at`] reads.
pub const WORD_LEN: usize = 8;

/// Returns the eight bytes at the index `at` as one number.
pub fn word_at(bytes: &[u8], at: usize) -> u64
    requires { at + 8 ≤ length bytes.now }
    ensures { to_be_bytes w64 result ≡ take 8 (drop at bytes.now) }
{
    u64::from_be_bytes([
        bytes[at],
        bytes[at + 1],
        bytes[at + 2],
        bytes[at + 3],
        bytes[at + 4],
        bytes[at + 5],
        bytes[at + 6],
        bytes[at + 7],
    ])
}

/// Returns whether all bytes are zero.
pub fn is_null(bytes: &[u8]) -> bool
    ensures { result ≡ is_null bytes.now }
{
    bytes.iter().all(|byte| *byte == 0)
}
