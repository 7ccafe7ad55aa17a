//! The JSON text of an event.

ghost use Rattle.view_events.specs.Event.{Adds, event_of};
ghost use Rattle.view_json.specs.Json.{event_text};

use crate::data::{append_datum, append_ranges};
use crate::entries::append_entry;
use crate::position::position_of;
use crate::untracked::{append_exclude, append_facts};
use crate::values::{append_piece, append_text};
use base_text::append::Appended;
use view_events::event::Event::{
    self, BeginArray, BeginCollection, BeginObject, Bytes, DirectoryFacts, EndArray, EndObject,
    EndText, EntryAt, ExcludeFile, Ranges, Value,
};

/// Appends the JSON text of an event.
#[inline(always)]
pub fn append_event(text: &mut Vec<u8>, event: Event<'_>) -> Appended
    ensures { Adds result text.old text.new (event_text (event_of event.entry)) }
{
    match event {
        Value(at, datum) => append_datum(text, position_of(at), datum),
        Bytes(at, bytes) => append_text(text, position_of(at), bytes),
        Ranges(at, ranges) => append_ranges(text, position_of(at), ranges),
        EntryAt(place, entry, path) => append_entry(text, place, entry, path),
        ExcludeFile(at, file) => append_exclude(text, position_of(at), file),
        DirectoryFacts(directory) => append_facts(text, directory),
        BeginObject(at) | BeginCollection(at, _) => append_piece(text, position_of(at), b"{"),
        EndObject(_) => text.extend_from_slice(b"}"),
        BeginArray(at, _) => append_piece(text, position_of(at), b"["),
        EndArray(_) => text.extend_from_slice(b"]"),
        EndText => text.extend_from_slice(b"\n"),
    }
}
