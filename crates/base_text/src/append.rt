//! Appending of numbers and ids to text.

ghost use Rattle.std.specs.Prelude.{◌≡◌, ◌++◌, OnOk, decimal};
ghost use Rattle.hex.specs.Hex.{encode_lower};
ghost use Rattle.index_parts.specs.Id.{id_bytes};

use crate::digits::{hex_forty, hex_sixty_four};
use index_parts::hash::ObjectId;
use itoa::Buffer;
use std::alloc::AllocError;

/// The result of an append: an error if memory for all the appended bytes can't be allocated.
pub type Appended = Result<(), AllocError>;

/// Appends a number in decimal digits.
pub fn append_decimal(text: &mut Vec<u8>, n: u64) -> Appended
    ensures { OnOk result (text.new.items ≡ text.old.items ++ decimal n) }
{
    let mut buffer = Buffer::new();
    text.extend_from_slice(buffer.format(n).as_bytes())
}

/// Appends an id in base 16, in lower case.
pub fn append_hex(text: &mut Vec<u8>, id: &ObjectId) -> Appended
    ensures { OnOk result (text.new.items ≡ text.old.items ++ encode_lower (id_bytes id.now)) }
{
    match id {
        ObjectId::Sha1(bytes) => text.extend_from_slice(&hex_forty(bytes)),
        ObjectId::Sha256(bytes) => text.extend_from_slice(&hex_sixty_four(bytes)),
    }
}
