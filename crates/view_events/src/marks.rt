//! The events of an offset table and of an end marker.

ghost use Rattle.std.specs.Option.{option_map};
ghost use Rattle.view_events.specs.Event.{AddsEvents};
ghost use Rattle.view_events.specs.Marks.{end_events, table_events};

use crate::event::Datum::{Absent, Answer, Block, Id, Malformed, Number};
use crate::event::Event::{BeginArray, BeginObject, EndArray, EndObject, Value};
use crate::event::Where::{Element, Member};
use crate::event::{Item, Key};
use crate::printer::{Printer, Text};
use base_text::append::Appended;
use ext_small::index_entry_offset_table::Offset;
use ext_small::marks::EndMark;

/// Appends whether there is an offset table, and its content.
pub fn append_table<P: Printer>(text: &mut Text, had: bool, table: &Option<Vec<Offset>>) -> Appended
    ensures { AddsEvents P.spell result text.old text.new
        (table_events had (option_map (λ v. v.items) table.now)) }
{
    let at = Member(Key::OffsetTable, 0, 10);
    P::put(text, Value(Member(Key::HadOffsetTable, 0, 9), Answer(had)))?;
    if !had {
        return P::put(text, Value(at, Absent));
    }
    let Some(blocks) = table else {
        return P::put(text, Value(at, Malformed));
    };
    P::put(text, BeginArray(at, blocks.len()))?;
    for (place, block) in blocks.iter().enumerate() {
        P::put(text, Value(Element(Item::Block, 1, place), Block(*block)))?;
    }
    P::put(text, EndArray(at))
}

/// Appends whether there is an end marker, and its content.
pub fn append_end<P: Printer>(text: &mut Text, had: bool, mark: Option<EndMark>) -> Appended
    ensures { AddsEvents P.spell result text.old text.new (end_events had mark) }
{
    let at = Member(Key::EndOfIndexMarker, 0, 12);
    P::put(
        text,
        Value(Member(Key::HadEndOfIndexMarker, 0, 11), Answer(had)),
    )?;
    if !had {
        return P::put(text, Value(at, Absent));
    }
    let Some(mark) = mark else {
        return P::put(text, Value(at, Malformed));
    };
    let offset = Number(u64::from(mark.offset));
    text.put_all::<P>(&[
        BeginObject(at),
        Value(Member(Key::OffsetToExtensions, 1, 0), offset),
        Value(Member(Key::EndChecksum, 1, 1), Id(Some(mark.digest))),
        EndObject(at),
    ])
}
