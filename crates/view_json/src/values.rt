//! Values of a JSON text, and members of an object.

ghost use Rattle.std.specs.Prelude.{◌≡◌, ◌++◌};
ghost use Rattle.index_parts.specs.Id.{id_bytes};
ghost use Rattle.std.specs.Bool.{OnTrue};
ghost use Rattle.json.specs.Print.{escape};
ghost use Rattle.view_events.specs.Event.{Adds};
ghost use Rattle.view_json.specs.Names.{as_position};
ghost use Rattle.view_json.specs.Values.{begin_of, begin_with, hex_string, json_string, separator, text_value};

use crate::position::Position;
use base_text::append::{Appended, append_hex};
use index_parts::hash::ObjectId;
use json::Writer;
use std::{mem, str};

/// Appends three pieces, one after another.
#[inline(always)]
fn append_three(text: &mut Vec<u8>, one: &[u8], two: &[u8], three: &[u8]) -> Appended
    ensures { Adds result text.old text.new (one.now ++ two.now ++ three.now) }
{
    text.extend_from_slice(one)?;
    text.extend_from_slice(two)?;
    text.extend_from_slice(three)
}

/// Appends what precedes a value at its position: its name, which ends with `end`, or a comma.
#[inline(always)]
#[tactic(auto, unfolding(crate::specs::Values::begin_with))]
pub fn append_begin(text: &mut Vec<u8>, position: Position<'_>, end: &[u8]) -> Appended
    ensures { Adds result text.old text.new (begin_with (as_position position.entry) end.now) }
{
    match position {
        Position::Alone => Ok(()),
        Position::First(name) => append_three(text, b"\"", name, end),
        Position::Next(name) => append_three(text, b",\"", name, end),
        Position::Element(place) => append_separator(text, place),
    }
}

/// Appends a value at its position.
#[inline(always)]
pub fn append_piece(text: &mut Vec<u8>, position: Position<'_>, value: &[u8]) -> Appended
    ensures { Adds result text.old text.new (begin_of (as_position position.entry) ++ value.now) }
{
    append_begin(text, position, b"\":")?;
    text.extend_from_slice(value)
}

/// Appends an id in base 16 as a string.
pub fn append_id(text: &mut Vec<u8>, id: &ObjectId) -> Appended
    ensures { Adds result text.old text.new (hex_string (id_bytes id.now)) }
{
    text.extend_from_slice(b"\"")?;
    append_hex(text, id)?;
    text.extend_from_slice(b"\"")
}

/// Returns whether the bytes are their own text in a string, without escapes. The loop doesn't stop early, so that many
/// bytes are compared at once.
fn stand_for_themselves(bytes: &[u8]) -> bool
    ensures { OnTrue result (escape bytes.now ≡ bytes.now) }
{
    let mut all = true;
    for byte in bytes {
        all &= (*byte >= b' ') & (*byte != b'"') & (*byte != b'\\');
    }
    all
}

/// Appends a string with escapes. After an error the text is empty.
fn append_escaped(text: &mut Vec<u8>, value: &str) -> Appended
    ensures { Adds result text.old text.new (json_string value.now) }
{
    let empty = Vec::new(*text.allocator());
    let mut writer = Writer::new(mem::replace(text, empty));
    writer.string(value)?;
    *text = writer.into_inner();
    Ok(())
}

/// Appends a string. After an error the text may be empty.
fn append_string(text: &mut Vec<u8>, value: &str) -> Appended
    ensures { Adds result text.old text.new (json_string value.now) }
{
    if !stand_for_themselves(value.as_bytes()) {
        return append_escaped(text, value);
    }
    append_three(text, b"\"", value.as_bytes(), b"\"")
}

/// Appends bytes in base 16 as a string.
fn append_bytes(text: &mut Vec<u8>, bytes: &[u8]) -> Appended
    ensures { Adds result text.old text.new (hex_string bytes.now) }
{
    let digits = hex::encode(*text.allocator(), bytes)?;
    append_three(text, b"\"", digits.as_bytes(), b"\"")
}

/// Appends a text as a string. If it isn't UTF-8, appends its bytes in base 16, and the name ends with `_bytes`.
pub fn append_text(text: &mut Vec<u8>, position: Position<'_>, bytes: &[u8]) -> Appended
    ensures { Adds result text.old text.new (text_value (as_position position.entry) bytes.now) }
{
    match str::from_utf8(bytes) {
        Ok(value) => {
            append_begin(text, position, b"\":")?;
            append_string(text, value)
        }
        Err(_) => {
            append_begin(text, position, b"_bytes\":")?;
            append_bytes(text, bytes)
        }
    }
}

/// Appends the comma before each value of an array except the first.
pub fn append_separator(text: &mut Vec<u8>, place: usize) -> Appended
    ensures { Adds result text.old text.new (separator place) }
{
    if place != 0 {
        text.extend_from_slice(b",")?;
    }
    Ok(())
}
