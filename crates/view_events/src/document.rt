//! The events of a complete index file.

ghost use Rattle.index_state.specs.State.{contents};
ghost use Rattle.base_text.specs.Blocks.{PutsText};
ghost use Rattle.view_events.specs.Document.{behind_events, document_events, head_events, last_events};
ghost use Rattle.view_events.specs.Event.{Sends, AddsEvents, print};

use crate::bitmaps::{append_link, append_monitor};
use crate::event::Datum::{Answer, Id, Number};
use crate::event::Event::{BeginArray, BeginObject, EndArray, EndObject, EndText, EntryAt, Value};
use crate::event::Key;
use crate::event::Where::{Alone, Member};
use crate::marks::{append_end, append_table};
use crate::printer::{Printer, Text};
use crate::trees::write_tree;
use crate::undo::write_undo;
use crate::untracked::write_untracked;
use base_text::append::Appended;
use base_text::block::{put_block, put_text};
use ext_small::marks::Marks;
use index_parts::hash::ObjectId;
use index_parts::hash::io::Out;
use index_state::State;
use std::alloc::Global;
use std::io;

/// Appends the events before the entries.
#[tactic(auto, unfolding(crate::specs::Document::head_events))]
fn append_head<P: Printer>(text: &mut Text, state: &State, checksum: Option<ObjectId>) -> Appended
    ensures { AddsEvents P.spell result text.old text.new (head_events (contents state.now) checksum) }
{
    let version = Number(state.version() as u64);
    let sparse = Answer(state.is_sparse());
    text.put_all::<P>(&[
        BeginObject(Alone),
        Value(Member(Key::Version, 0, 0), version),
        Value(Member(Key::Checksum, 0, 1), Id(checksum)),
        Value(Member(Key::IsSparse, 0, 2), sparse),
        BeginArray(Member(Key::Entries, 0, 3), state.entries().len()),
    ])
}

/// Appends the file system monitor, the offset table, the end marker, and the end of the text.
#[tactic(auto, unfolding(crate::specs::Document::last_events))]
fn append_last<P: Printer>(text: &mut Text, state: &State, marks: &Marks) -> Appended
    ensures { AddsEvents P.spell result text.old text.new
        (last_events (contents state.now).extensions marks.now) }
{
    let (table, marker) = (state.had_offset_table(), state.had_end_of_index_marker());
    append_monitor::<P>(text, state.fs_monitor())?;
    append_table::<P>(text, table, &marks.table)?;
    append_end::<P>(text, marker, marks.end)?;
    text.put_all::<P>(&[EndObject(Alone), EndText])
}

/// Appends the events after the entries. Text that fills a block is written.
fn write_behind<P: Printer, W: Out>(
    text: &mut Text,
    state: &State,
    marks: &Marks,
    out: &mut W,
) -> io::Result<()>
    ensures { Sends P.spell W.Out out.old out.new result text.old text.new
        (behind_events (contents state.now).extensions marks.now) }
{
    P::put(text, EndArray(Member(Key::Entries, 0, 3)))?;
    write_tree::<P, W>(text, state.tree(), out)?;
    append_link::<P>(text, state.link())?;
    write_undo::<P, W>(text, state.resolve_undo(), out)?;
    write_untracked::<P, W>(text, state.untracked(), out)?;
    Ok(append_last::<P>(text, state, marks)?)
}

/// Writes the content of an index file as the text of a printer: its index, and the id at its end. The content of its
/// offset table and its end marker is the argument `marks`, as [`marks_of`](ext_small::marks::marks_of) reads it in the
/// file's bytes. Extensions that the library doesn't read are left out.
///
/// Text is collected in one buffer, which is written when it has more than 64 KiB.
///
/// # Errors
///
/// An error is that of the output, which has failed then, or an allocation failure of the buffer. What was written is a
/// prefix of the text.
pub fn write_document<P: Printer, W: Out>(
    alloc: Global,
    state: &State,
    checksum: Option<ObjectId>,
    marks: &Marks,
    out: &mut W,
) -> io::Result<()>
    ensures { PutsText W.Out out.old out.new result
        (print P.spell (document_events (contents state.now) checksum marks.now)) }
{
    let bytes = Vec::new(alloc);
    let mut text = Text { bytes };
    append_head::<P>(&mut text, state, checksum)?;
    for (place, entry) in state.entries().iter().enumerate() {
        P::put(&mut text, EntryAt(place, entry, entry.path(state)))?;
        put_block(&mut text.bytes, out)?;
    }
    write_behind::<P, W>(&mut text, state, marks, out)?;
    put_text(text.bytes.as_slice(), out)
}
