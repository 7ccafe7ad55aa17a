//! JSON lines: each part of an index file is an object on a line of its own.

ghost use Rattle.std.specs.Prelude.{◌≡◌, ◌++◌, codes, decimal};
ghost use Rattle.std.specs.Option.{option_map};
ghost use Rattle.view_events.specs.Event.{Adds, record_at};
ghost use Rattle.index_state.specs.State.{contents};
ghost use Rattle.base_text.specs.Blocks.{PutsText};
ghost use Rattle.view_json.specs.EntryValues.{entry_value};
ghost use Rattle.view_json.specs.Lines.{begin_line, begin_list, end_line, end_list, end_part, has_line};
ghost use Rattle.view_json.specs.Lines.{json_lines, event_line, part_name, value_line};

use crate::data::append_datum;
use crate::entries::append_entry;
use crate::events::append_event;
use crate::position::{Position, field_name, position_of};
use crate::values::append_piece;
use base_text::append::{Appended, append_decimal};
use entry_list::Entry;
use ext_small::marks::Marks;
use index_parts::hash::ObjectId;
use index_parts::hash::io::Out;
use index_state::State;
use std::alloc::Global;
use std::io;
use view_events::document::write_document;
use view_events::event::Datum::{self, Absent, Answer};
use view_events::event::Event::{
    self, BeginArray, BeginCollection, BeginObject, Bytes, DirectoryFacts, EndArray, EndObject,
    EndText, EntryAt, ExcludeFile, Ranges, Value,
};
use view_events::event::{Key, Where};
use view_events::printer::{Printer, Text};

/// Returns the name of a part with a line of its own: a member of the index after its entries.
fn part_name<'a>(at: Where) -> Option<&'a [u8]>
    ensures { option_map (λ name. name.now) result ≡ part_name at }
{
    match at {
        Where::Member(Key::Version | Key::Checksum | Key::IsSparse | Key::Entries, _, _) => None,
        Where::Member(key, 0, _) => Some(field_name(key)),
        _ => None,
    }
}

/// Returns whether a value has a line. A value that only reports whether a part is there has none.
fn has_line(datum: Datum) -> bool
    ensures { result ≡ has_line datum }
{
    !matches!(datum, Absent | Answer(_))
}

/// Appends a value: the line of a part, a member or an element.
fn append_value(text: &mut Vec<u8>, at: Where, datum: Datum) -> Appended
    ensures { Adds result text.old text.new (value_line (part_name at) at datum) }
{
    let Some(name) = part_name(at) else {
        return append_datum(text, position_of(at), datum);
    };
    if !has_line(datum) {
        return Ok(());
    }
    text.extend_from_slice(b"{")?;
    append_datum(text, Position::First(name), datum)?;
    text.extend_from_slice(b"}\n")
}

/// Appends the begin of an object or an array.
fn append_begin_line(text: &mut Vec<u8>, at: Where, bracket: &[u8]) -> Appended
    ensures { Adds result text.old text.new (begin_line (part_name at) at bracket.now) }
{
    let Some(name) = part_name(at) else {
        return append_piece(text, position_of(at), bracket);
    };
    text.extend_from_slice(b"{")?;
    append_piece(text, Position::First(name), bracket)
}

/// Appends the end of an object or an array.
fn append_end_line(text: &mut Vec<u8>, at: Where, bracket: &[u8]) -> Appended
    ensures { Adds result text.old text.new (end_line (part_name at) bracket.now) }
{
    text.extend_from_slice(bracket)?;
    if part_name(at).is_none() {
        return Ok(());
    }
    text.extend_from_slice(b"}\n")
}

/// Appends the number of entries, and the end of the first line.
fn append_num_entries(text: &mut Vec<u8>, count: usize) -> Appended
    ensures { Adds result text.old text.new
        (codes ",\"num_entries\":" ++ decimal count ++ codes "}\n") }
{
    text.extend_from_slice(b",\"num_entries\":")?;
    append_decimal(text, count as u64)?;
    text.extend_from_slice(b"}\n")
}

/// Appends the begin of an array. For the array of the entries, appends the end of the first line instead.
fn append_begin_list(text: &mut Vec<u8>, at: Where, count: usize) -> Appended
    ensures { Adds result text.old text.new (begin_list at count) }
{
    if let Where::Member(Key::Entries, _, _) = at {
        return append_num_entries(text, count);
    }
    append_begin_line(text, at, b"[")
}

/// Appends the end of an array.
fn append_end_list(text: &mut Vec<u8>, at: Where) -> Appended
    ensures { Adds result text.old text.new (end_list at) }
{
    if let Where::Member(Key::Entries, _, _) = at {
        return Ok(());
    }
    append_end_line(text, at, b"]")
}

/// Appends the end of an object.
fn append_end_part(text: &mut Vec<u8>, at: Where) -> Appended
    ensures { Adds result text.old text.new (end_part at) }
{
    if let Where::Alone = at {
        return Ok(());
    }
    append_end_line(text, at, b"}")
}

/// Appends the line of an entry.
fn append_entry_line(text: &mut Vec<u8>, entry: &Entry, path: &[u8]) -> Appended
    ensures { Adds result text.old text.new
        (codes "{\"entry\":" ++ entry_value (record_at path.now entry.now) ++ codes "}\n") }
{
    text.extend_from_slice(b"{\"entry\":")?;
    append_entry(text, 0, entry, path)?;
    text.extend_from_slice(b"}\n")
}

/// The printer of JSON lines.
struct Lines;

impl Printer for Lines {
    ghost spell = { event_line };

    #[inline(always)]
    fn put(text: &mut Text, event: Event<'_>) -> Appended {
        let text = &mut text.bytes;
        match event {
            Value(at, datum) => append_value(text, at, datum),
            EntryAt(_, entry, path) => append_entry_line(text, entry, path),
            BeginObject(at) | BeginCollection(at, _) => append_begin_line(text, at, b"{"),
            EndObject(at) => append_end_part(text, at),
            BeginArray(at, count) => append_begin_list(text, at, count),
            EndArray(at) => append_end_list(text, at),
            EndText => Ok(()),
            Bytes(_, _) | Ranges(_, _) | ExcludeFile(_, _) | DirectoryFacts(_) => {
                append_event(text, event)
            }
        }
    }
}

/// Writes the content of an index file as lines, each of which is one JSON object. Names and values are those of
/// [`write_json`](crate::write_json):
///
/// - first `{"version":..,"checksum":..,"is_sparse":..,"num_entries":..}`, whose last member is the number of lines
///   with entries that follow;
/// - then `{"entry":{..}}` for each entry, in their order;
/// - then `{"tree":{..}}`, `{"link":{..}}`, `{"resolve_undo":[..]}`, `{"untracked":{..}}`, `{"fs_monitor":{..}}`,
///   `{"offset_table":[..]}` and `{"end_of_index_marker":{..}}`, each only if there is such a part. An offset table and
///   an end marker that are malformed are `null`.
///
/// A reader needs no more memory than for the longest line. It selects lines by the name of their only member, as in
/// `jq 'select(.entry).entry.path'`.
///
/// Text is collected in one buffer, which is written when it has more than 64 KiB.
///
/// # Errors
///
/// An error is that of the output, which has failed then, or an allocation failure of the buffer. What was written is a
/// prefix of the text.
pub fn write_json_lines<W: Out>(
    alloc: Global,
    state: &State,
    checksum: Option<ObjectId>,
    marks: &Marks,
    out: &mut W,
) -> io::Result<()>
    ensures { PutsText W.Out out.old out.new result
        (json_lines (contents state.now) checksum marks.now) }
{
    write_document::<Lines, W>(alloc, state, checksum, marks, out)
}
