//! Readers of the value at the start of bytes, each with one exact contract.
//!
//! A reader returns its value and the bytes after it, or None if there is no value. It allocates no memory. All numbers
//! are big-endian (gitformat-index).

ghost use Rattle.std.specs.Prelude.{◌≡◌, ◌==◌, ◌+◌, ◌*◌, ◌≤◌, ◌↔◌, IsTrue, IfSome, length, position};
ghost use Rattle.std.specs.Option.{option_map};
ghost use Rattle.index_parts.specs.Numbers.{number};
ghost use Rattle.index_parts.specs.Limit.{IsWithin, is_within};
ghost use Rattle.index_parts.specs.Octal.{is_octal_digit, octal_number};
ghost use Rattle.index_parts.specs.ReadingSteps.{piece_at, split_at_byte, offset_at, number_at, object_id_at};

pub use crate::bytes::{WORD_LEN, is_null, word_at};
use crate::bytes::{from_be_u32, from_be_u64};
use crate::hash::{Kind, ObjectId};

/// Returns the first `size` bytes, and the bytes after them. None if there are fewer.
pub fn piece(bytes: &[u8], size: usize) -> Option<(&[u8], &[u8])>
    ensures exact { option_map (λ x. (x.0.now, x.1.now)) result ≡ piece_at size bytes.now }
    ensures len { IfSome result (λ x. length x.0.now ≡ size) }
{
    if bytes.len() < size {
        return None;
    }
    Some(bytes.split_at(size))
}

/// Returns the index of the first byte of this value.
fn position_of(bytes: &[u8], byte: u8) -> Option<usize>
    ensures { result ≡ position (λ x. x == byte) bytes.now }
{
    bytes.iter().position(|x| *x == byte)
}

/// Returns the bytes before and after the first byte of this value.
///
/// None if no byte has the value. None too if there are fewer than two bytes, even if the only byte has the value.
pub fn up_to(bytes: &[u8], byte: u8) -> Option<(&[u8], &[u8])>
    ensures { option_map (λ x. (x.0.now, x.1.now)) result ≡ split_at_byte byte bytes.now }
{
    if bytes.len() < 2 {
        return None;
    }
    let place = position_of(bytes, byte)?;
    Some((&bytes[..place], &bytes[place + 1..]))
}

/// Returns the offset number (varint) at the start, and the bytes after it (gitformat-index, entries of version 4).
///
/// Each byte has seven bits, the highest first, and one is added before each further byte. Bit 7, the continuation bit,
/// is set in each byte except the last. None if the last byte is missing, or if the number has more than 64 bits.
pub fn offset(bytes: &[u8]) -> Option<(u64, &[u8])>
    ensures { option_map (λ x. (x.0, x.1.now)) result ≡ offset_at bytes.now }
{
    let mut value = 0u64;
    for (i, b) in bytes.iter().enumerate() {
        value = value.checked_mul(128)?.checked_add(u64::from(*b % 128))?;
        if *b < 128 {
            return Some((value, &bytes[i + 1..]));
        }
        value = value.checked_add(1)?;
    }
    None
}

/// Returns the number of the first four bytes, and the bytes after them. None if there are fewer.
pub fn u32(bytes: &[u8]) -> Option<(u32, &[u8])>
    ensures { option_map (λ x. (x.0, x.1.now)) result ≡ number_at 4 bytes.now }
{
    let (front, rest) = piece(bytes, 4)?;
    Some((from_be_u32(front), rest))
}

/// Returns whether the byte is an octal digit.
pub fn is_octal_digit(b: u8) -> bool
    ensures { result ≡ is_octal_digit b }
{
    b >= b'0' && b <= b'7'
}

/// Returns the number of one octal digit or more. None if the text has another byte, or if the number has more than 32
/// bits.
pub fn octal(text: &[u8]) -> Option<u32>
    ensures { result ≡ octal_number text.now }
{
    if text.is_empty() {
        return None;
    }
    let mut value = 0u32;
    for b in text {
        if !is_octal_digit(*b) {
            return None;
        }
        value = value.checked_mul(8)?.checked_add(u32::from(*b - b'0'))?;
    }
    Some(value)
}

/// Returns the number of the first eight bytes, and the bytes after them. None if there are fewer.
pub fn u64(bytes: &[u8]) -> Option<(u64, &[u8])>
    ensures { option_map (λ x. (x.0, x.1.now)) result ≡ number_at 8 bytes.now }
{
    let (front, rest) = piece(bytes, 8)?;
    Some((from_be_u64(front), rest))
}

/// Returns the id of this hash algorithm, 20 or 32 bytes, and the bytes after it. None if there are fewer.
pub fn id(bytes: &[u8], kind: Kind) -> Option<(ObjectId, &[u8])>
    ensures { option_map (λ x. (x.0, x.1.now)) result ≡ object_id_at kind bytes.now }
{
    let (front, rest) = piece(bytes, kind.len_in_bytes())?;
    Some((ObjectId::of_kind(kind, front), rest))
}

/// Returns the number at the index `place`, counted from 0, of numbers of four bytes each.
pub fn number(numbers: &[u8], place: usize) -> u32
    requires { 4 * place + 4 ≤ length numbers.now }
    ensures { result ≡ number numbers.now place }
{
    from_be_u32(&numbers[4 * place..4 * place + 4])
}

/// Returns whether `size` bytes are within the limit. None is no limit.
pub fn is_within(limit: Option<usize>, size: usize) -> bool
    ensures exact { result ≡ is_within limit size }
    ensures fact { IsTrue result ↔ IsWithin limit size }
{
    let Some(limit) = limit else {
        return true;
    };
    size <= limit
}

/// Returns whether `count` values of `size` bytes each are within the limit. None is no limit.
pub fn are_within(limit: Option<usize>, size: u64, count: u64) -> bool
    ensures { result ≡ is_within limit (size * count) }
{
    match size.checked_mul(count) {
        Some(total) => is_within(limit, total as usize),
        None => limit.is_none(),
    }
}
