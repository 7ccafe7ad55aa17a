//! Text that is composed from its end, in a caller's buffer. Each piece is written before those that are there, and so
//! each line before the lines after it. When the text is complete, it is appended as one piece.

ghost use Rattle.std.specs.Prelude.{◌≡◌, ◌+◌, decimal, length};
ghost use Rattle.hex.specs.Hex.{encode_lower};
ghost use Rattle.index_parts.specs.Id.{id_bytes};
ghost use Rattle.base_text.specs.Digits.{octal};
ghost use Rattle.base_text.specs.Prepending.{HasRoomBefore, Prepends};

use crate::digits::{hex_forty, hex_sixty_four, high_octal, low_octal};
use index_parts::hash::ObjectId;
use itoa::write_digits;

/// Writes `piece` before the index `end` of `room`, and returns the index of its start.
#[inline(always)]
pub fn prepend(room: &mut [u8], end: usize, piece: &[u8]) -> usize
    requires { HasRoomBefore room.old end (length piece.now) }
    ensures prepends { Prepends room.old room.new end (length piece.now) result piece.now }
    ensures len { result + length piece.now ≡ end }
{
    let start = end - piece.len();
    room[start..end].copy_from_slice(piece);
    start
}

/// Writes a number in decimal digits before the index `end` of `room`, and returns the index of its start.
#[inline(always)]
pub fn prepend_decimal(room: &mut [u8], end: usize, n: u64) -> usize
    requires { HasRoomBefore room.old end 20 }
    ensures prepends { Prepends room.old room.new end 20 result (decimal n) }
    ensures len { result + length (decimal n) ≡ end }
{
    write_digits(n, room, end)
}

/// Writes an id in base 16 before the index `end` of `room`, and returns the index of its start.
pub fn prepend_hex(room: &mut [u8], end: usize, id: &ObjectId) -> usize
    requires { HasRoomBefore room.old end 64 }
    ensures { Prepends room.old room.new end 64 result (encode_lower (id_bytes id.now)) }
{
    match id {
        ObjectId::Sha1(bytes) => prepend(room, end, &hex_forty(bytes)),
        ObjectId::Sha256(bytes) => prepend(room, end, &hex_sixty_four(bytes)),
    }
}

/// Writes a number in octal digits before the index `end` of `room`, and returns the index of its start. It has six
/// digits, or eleven if six are too few.
#[inline(always)]
#[tactic(auto, unfolding(crate::specs::Digits::octal))]
pub fn prepend_octal(room: &mut [u8], end: usize, n: u32) -> usize
    requires { HasRoomBefore room.old end 11 }
    ensures { Prepends room.old room.new end 11 result (octal n) }
{
    let end = prepend(room, end, &low_octal(n));
    if n < 0o1000000 {
        return end;
    }
    prepend(room, end, &high_octal(n))
}
