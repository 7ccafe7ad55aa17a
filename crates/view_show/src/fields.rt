//! Lines with a name and a value.

ghost use Rattle.std.specs.Prelude.{◌++◌, codes};
ghost use Rattle.view_events.specs.Event.{Adds};
ghost use Rattle.view_show.specs.Fields.{block_text, datum_text, field, heading_line, side_text, text_line};

use base_text::append::{Appended, append_decimal, append_hex};
use base_text::escape::append_escaped;
use base_text::prepend::prepend_octal;
use ext_small::index_entry_offset_table::Offset;
use ext_small::resolve_undo::Stage;
use view_events::event::Datum::{self, Absent, Answer, Block, Count, Id, Malformed, Number, Side};

/// Appends the prefix of a value: the indent, the name, a colon and a space.
fn append_name(lines: &mut Vec<u8>, indent: &[u8], name: &[u8]) -> Appended
    ensures { Adds result lines.old lines.new (indent.now ++ name.now ++ codes ": ") }
{
    lines.extend_from_slice(indent)?;
    lines.extend_from_slice(name)?;
    lines.extend_from_slice(b": ")
}

/// Appends a heading: the line above lines with a deeper indent.
#[tactic(auto, unfolding(crate::specs::Fields::heading_line))]
pub fn append_heading(lines: &mut Vec<u8>, indent: &[u8], words: &[u8]) -> Appended
    ensures { Adds result lines.old lines.new (heading_line indent.now words.now) }
{
    lines.extend_from_slice(indent)?;
    lines.extend_from_slice(words)?;
    lines.extend_from_slice(b":\n")
}

/// Appends a line with bytes as text, escaped to fit in the line.
#[tactic(auto, unfolding(crate::specs::Fields::field))]
pub fn append_text(lines: &mut Vec<u8>, indent: &[u8], name: &[u8], bytes: &[u8]) -> Appended
    ensures { Adds result lines.old lines.new (text_line indent.now name.now bytes.now) }
{
    append_name(lines, indent, name)?;
    append_escaped(lines, bytes)?;
    lines.extend_from_slice(b"\n")
}

/// Appends the mode and the id of a side.
#[tactic(auto, unfolding(crate::specs::Fields::side_text))]
fn append_side(lines: &mut Vec<u8>, side: Stage) -> Appended
    ensures { Adds result lines.old lines.new (side_text side) }
{
    let mut room = [0; 11];
    let start = prepend_octal(&mut room, 11, side.mode());
    lines.extend_from_slice(&room[start..])?;
    lines.extend_from_slice(b" ")?;
    append_hex(lines, &side.id())
}

/// Appends the offset of a block and the number of its entries.
#[tactic(auto, unfolding(crate::specs::Fields::block_text))]
fn append_block(lines: &mut Vec<u8>, block: Offset) -> Appended
    ensures { Adds result lines.old lines.new (block_text block) }
{
    lines.extend_from_slice(b"offset ")?;
    append_decimal(lines, u64::from(block.from_beginning_of_file))?;
    lines.extend_from_slice(b", entries ")?;
    append_decimal(lines, u64::from(block.num_entries))
}

/// Appends the value of a field.
fn append_value(lines: &mut Vec<u8>, datum: Datum) -> Appended
    ensures { Adds result lines.old lines.new (datum_text datum) }
{
    match datum {
        Number(n) => append_decimal(lines, n),
        Id(Some(id)) => append_hex(lines, &id),
        Answer(true) => lines.extend_from_slice(b"yes"),
        Answer(false) => lines.extend_from_slice(b"no"),
        Side(Some(side)) => append_side(lines, side),
        Block(block) => append_block(lines, block),
        Count(Some(n)) => append_decimal(lines, u64::from(n)),
        Count(None) => lines.extend_from_slice(b"-1"),
        Malformed => lines.extend_from_slice(b"malformed"),
        Id(None) | Side(None) | Absent => lines.extend_from_slice(b"none"),
    }
}

/// Appends the line of a field.
#[tactic(auto, unfolding(crate::specs::Fields::field))]
pub fn append_datum(lines: &mut Vec<u8>, indent: &[u8], name: &[u8], datum: Datum) -> Appended
    ensures { Adds result lines.old lines.new (field indent.now name.now (datum_text datum)) }
{
    append_name(lines, indent, name)?;
    append_value(lines, datum)?;
    lines.extend_from_slice(b"\n")
}
