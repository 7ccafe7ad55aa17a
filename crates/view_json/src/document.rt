//! The JSON text of events.

ghost use Rattle.index_state.specs.State.{contents};
ghost use Rattle.base_text.specs.Blocks.{PutsText};
ghost use Rattle.view_json.specs.Json.{event_text, json_text};

use crate::events::append_event;
use base_text::append::Appended;
use ext_small::marks::Marks;
use index_parts::hash::ObjectId;
use index_parts::hash::io::Out;
use index_state::State;
use std::alloc::Global;
use std::io;
use view_events::document::write_document;
use view_events::event::Event;
use view_events::printer::{Printer, Text};

/// The printer of JSON.
struct Json;

impl Printer for Json {
    ghost spell = { event_text };

    #[inline(always)]
    fn put(text: &mut Text, event: Event<'_>) -> Appended {
        append_event(&mut text.bytes, event)
    }
}

/// Writes the content of an index file, its index and the id at its end, as one JSON object (RFC 8259) on one line.
/// Fields have the names that they have in the library. If a text isn't UTF-8, its value is its bytes in base 16, and
/// its member's name ends with `_bytes`. The offset table and the end marker are the argument `marks`, as
/// [`marks_of`](ext_small::marks::marks_of) reads them.
///
/// Text is collected in one buffer, which is written when it has more than 64 KiB.
///
/// # Errors
///
/// An error is that of the output, which has failed then, or an allocation failure of the buffer. What was written is a
/// prefix of the text.
pub fn write_json<W: Out>(
    alloc: Global,
    state: &State,
    checksum: Option<ObjectId>,
    marks: &Marks,
    out: &mut W,
) -> io::Result<()>
    ensures { PutsText W.Out out.old out.new result
        (json_text (contents state.now) checksum marks.now) }
{
    write_document::<Json, W>(alloc, state, checksum, marks, out)
}
