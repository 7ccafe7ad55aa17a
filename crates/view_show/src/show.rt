//! The lines of events.

ghost use Rattle.index_state.specs.State.{contents};
ghost use Rattle.base_text.specs.Blocks.{PutsText};
ghost use Rattle.view_show.specs.Show.{line_text, show_lines};

use crate::entries::append_entry;
use crate::structure::{
    append_begin, append_count, append_ranges_at, append_text_at, append_value_at,
};
use crate::untracked::{append_exclude, append_facts};
use base_text::append::Appended;
use ext_small::marks::Marks;
use index_parts::hash::ObjectId;
use index_parts::hash::io::Out;
use index_state::State;
use std::alloc::Global;
use std::io;
use view_events::document::write_document;
use view_events::event::Event::{
    self, BeginArray, BeginCollection, BeginObject, Bytes, DirectoryFacts, EndArray, EndObject,
    EndText, EntryAt, ExcludeFile, Ranges, Value,
};
use view_events::printer::{Printer, Text};

/// The printer of lines for people.
struct Lines;

impl Printer for Lines {
    ghost spell = { line_text };

    #[inline(always)]
    fn put(text: &mut Text, event: Event<'_>) -> Appended {
        let lines = &mut text.bytes;
        match event {
            Value(at, datum) => append_value_at(lines, at, datum),
            Bytes(at, bytes) => append_text_at(lines, at, bytes),
            Ranges(at, ranges) => append_ranges_at(lines, at, ranges),
            EntryAt(place, entry, path) => append_entry(lines, place, entry, path),
            ExcludeFile(at, file) => append_exclude(lines, at, file),
            DirectoryFacts(directory) => append_facts(lines, directory),
            BeginObject(at) => append_begin(lines, at),
            BeginCollection(at, count) | BeginArray(at, count) => append_count(lines, at, count),
            EndObject(_) | EndArray(_) | EndText => Ok(()),
        }
    }
}

/// Writes the content of an index file for people, line by line: its index, the id at its end, its offset table and its
/// end marker. The last two are the argument `marks`, as [`marks_of`](ext_small::marks::marks_of) reads them in the
/// file's bytes. Extensions that the library doesn't read are left out.
///
/// Lines are collected in one buffer, which is written when it has more than 64 KiB.
///
/// # Errors
///
/// An error is that of the output, which has failed then, or an allocation failure of the buffer. What was written is a
/// prefix of the lines.
pub fn write_show<W: Out>(
    alloc: Global,
    state: &State,
    checksum: Option<ObjectId>,
    marks: &Marks,
    out: &mut W,
) -> io::Result<()>
    ensures { PutsText W.Out out.old out.new result
        (show_lines (contents state.now) checksum marks.now) }
{
    write_document::<Lines, W>(alloc, state, checksum, marks, out)
}
