//! The values of fields: numbers, ids, ranges, sides of a conflict, blocks of entries.

ghost use Rattle.std.specs.Prelude.{◌++◌};
ghost use Rattle.view_events.specs.Event.{Adds};
ghost use Rattle.view_json.specs.Json.{datum_value, range_value};
ghost use Rattle.view_json.specs.Names.{as_position};
ghost use Rattle.view_json.specs.Values.{array, begin_of};

use crate::position::Position;
use crate::values::{append_begin, append_id, append_piece, append_separator};
use base_text::append::{Appended, append_decimal};
use ext_bitmap::ranges::Range;
use view_events::event::Datum::{self, Absent, Answer, Block, Count, Id, Malformed, Number, Side};

/// Appends a range as an array: its first index and its length.
#[tactic(auto, unfolding(crate::specs::Json::range_value))]
fn append_range(text: &mut Vec<u8>, range: Range) -> Appended
    ensures { Adds result text.old text.new (range_value range) }
{
    text.extend_from_slice(b"[")?;
    append_decimal(text, range.first)?;
    text.extend_from_slice(b",")?;
    append_decimal(text, range.end.saturating_sub(range.first))?;
    text.extend_from_slice(b"]")
}

/// Appends an array of ranges at its position.
pub fn append_ranges(text: &mut Vec<u8>, position: Position<'_>, ranges: &[Range]) -> Appended
    ensures { Adds result text.old text.new
        (begin_of (as_position position.entry) ++ array range_value ranges.now) }
{
    append_piece(text, position, b"[")?;
    for (place, range) in ranges.iter().enumerate() {
        append_separator(text, place)?;
        append_range(text, *range)?;
    }
    text.extend_from_slice(b"]")
}

/// Appends the value of a field.
#[tactic(auto, unfolding(crate::specs::Json::side_value, crate::specs::Json::block_value, crate::specs::Values::member))]
fn append_value(text: &mut Vec<u8>, datum: Datum) -> Appended
    ensures { Adds result text.old text.new (datum_value datum) }
{
    match datum {
        Number(n) => append_decimal(text, n),
        Id(Some(id)) => append_id(text, &id),
        Answer(true) => text.extend_from_slice(b"true"),
        Answer(false) => text.extend_from_slice(b"false"),
        Side(Some(side)) => {
            text.extend_from_slice(b"{\"mode\":")?;
            append_decimal(text, u64::from(side.mode()))?;
            text.extend_from_slice(b",\"id\":")?;
            append_id(text, &side.id())?;
            text.extend_from_slice(b"}")
        }
        Block(block) => {
            text.extend_from_slice(b"{\"from_beginning_of_file\":")?;
            append_decimal(text, u64::from(block.from_beginning_of_file))?;
            text.extend_from_slice(b",\"num_entries\":")?;
            append_decimal(text, u64::from(block.num_entries))?;
            text.extend_from_slice(b"}")
        }
        Count(Some(n)) => append_decimal(text, u64::from(n)),
        Id(None) | Side(None) | Count(None) | Absent | Malformed => text.extend_from_slice(b"null"),
    }
}

/// Appends the value of a field at its position.
pub fn append_datum(text: &mut Vec<u8>, position: Position<'_>, datum: Datum) -> Appended
    ensures { Adds result text.old text.new
        (begin_of (as_position position.entry) ++ datum_value datum) }
{
    append_begin(text, position, b"\":")?;
    append_value(text, datum)
}
