//! Lines with a name and a value, written from their end into a buffer of the caller. When all are complete they are
//! appended as one piece.

ghost use Rattle.std.specs.Prelude.{◌+◌, ◌++◌, codes, length};
ghost use Rattle.view_show.specs.Fields.{id_line, nanoseconds, number_line};
ghost use Rattle.base_text.specs.Prepending.{HasRoomBefore, Prepends};

use base_text::prepend::{prepend, prepend_decimal, prepend_hex};
use index_parts::hash::ObjectId;

/// Writes the prefix of a value before index `end` of `room`: the indent, the name, a colon and a space. Returns the
/// index of its first byte.
#[inline(always)]
pub fn prepend_name(room: &mut [u8], end: usize, indent: &[u8], name: &[u8]) -> usize
    requires { HasRoomBefore room.old end (length indent.now + length name.now + 2) }
    ensures { Prepends room.old room.new end (length indent.now + length name.now + 2) result
        (indent.now ++ name.now ++ codes ": ") }
{
    let end = prepend(room, end, b": ");
    let end = prepend(room, end, name);
    prepend(room, end, indent)
}

/// Writes a line with a number before index `end` of `room`. Returns the index of its first byte.
#[inline(always)]
#[tactic(auto, unfolding(crate::specs::Fields::field))]
pub fn prepend_number(room: &mut [u8], end: usize, indent: &[u8], name: &[u8], n: u64) -> usize
    requires { HasRoomBefore room.old end (length indent.now + length name.now + 23) }
    ensures { Prepends room.old room.new end (length indent.now + length name.now + 23) result
        (number_line indent.now name.now n) }
{
    let end = prepend(room, end, b"\n");
    let end = prepend_decimal(room, end, n);
    prepend_name(room, end, indent, name)
}

/// Writes the line of an entry's id before index `end` of `room`. Returns the index of its first byte.
#[tactic(auto, unfolding(crate::specs::Fields::field))]
pub fn prepend_id(room: &mut [u8], end: usize, id: &ObjectId) -> usize
    requires { HasRoomBefore room.old end 73 }
    ensures { Prepends room.old room.new end 73 result
        (id_line (codes "    ") (codes "id") id.now) }
{
    let end = prepend(room, end, b"\n");
    let end = prepend_hex(room, end, id);
    prepend_name(room, end, b"    ", b"id")
}

/// Writes nanoseconds, in nine digits or more, before index `end` of `room`. Returns the index of the first digit.
#[inline(always)]
pub fn prepend_nanoseconds(room: &mut [u8], end: usize, n: u32) -> usize
    requires { HasRoomBefore room.old end 20 }
    ensures { Prepends room.old room.new end 20 result (nanoseconds n) }
{
    let start = prepend_decimal(room, end, u64::from(n));
    let len = end - start;
    let zeros = b"000000000".as_slice();
    if len < 9 {
        return prepend(room, start, &zeros[len..]);
    }
    start
}
