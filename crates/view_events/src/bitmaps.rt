//! The events of a bitmap, and of the parts that have bitmaps: a link and a file system monitor.

ghost use Rattle.std.specs.Prelude.{◌≡◌};
ghost use Rattle.std.specs.Option.{option_map};
ghost use Rattle.ext_bitmap.specs.Bitmap.{bitmap};
ghost use Rattle.ext_small.specs.FsMonitor.{monitor_of, token_value};
ghost use Rattle.ext_split.specs.Link.{link_of};
ghost use Rattle.view_events.specs.Bitmaps.{bitmap_events, link_events, monitor_events, token_event};
ghost use Rattle.view_events.specs.Event.{AddsEvents, event_of};

use crate::event::Datum::{Absent, Answer, Id, Number};
use crate::event::Event::{self, BeginObject, Bytes, EndObject, Ranges, Value};
use crate::event::Key;
use crate::event::Where::{self, Member};
use crate::printer::{Printer, Text};
use base_text::append::Appended;
use ext_bitmap::ewah;
use ext_bitmap::ranges::set_bits;
use ext_small::FsMonitor;
use ext_small::fs_monitor::Token;
use ext_split::link::Link;

/// Appends a bitmap as an object: its number of bits, and the bits that are set. The members are at depth `depth`.
#[tactic(auto, unfolding(crate::specs::Bitmaps::bitmap_events))]
fn append_bitmap<P: Printer>(text: &mut Text, at: Where, depth: u32, map: &ewah::Vec) -> Appended
    ensures { AddsEvents P.spell result text.old text.new (bitmap_events at depth (bitmap map.now)) }
{
    let bits = set_bits(*text.bytes.allocator(), map)?;
    let num_bits = Number(u64::from(map.num_bits()));
    let is_malformed = Answer(bits.is_malformed);
    P::put(text, BeginObject(at))?;
    P::put(text, Value(Member(Key::NumBits, depth, 0), num_bits))?;
    P::put(text, Ranges(Member(Key::SetBits, depth, 1), &bits.ranges))?;
    P::put(
        text,
        Value(Member(Key::IsMalformed, depth, 2), is_malformed),
    )?;
    P::put(text, EndObject(at))
}

/// Appends the link to a shared index: its id, and which entries of the shared index are deleted or replaced.
#[tactic(auto, unfolding(crate::specs::Bitmaps::link_events))]
pub fn append_link<P: Printer>(text: &mut Text, link: Option<&Link>) -> Appended
    ensures { AddsEvents P.spell result text.old text.new
        (link_events (option_map (λ l. link_of l.now) link.entry)) }
{
    let at = Member(Key::Link, 0, 5);
    let Some(link) = link else {
        return P::put(text, Value(at, Absent));
    };
    let id = Id(Some(link.shared_index_checksum));
    let field = Value(Member(Key::SharedIndexChecksum, 1, 0), id);
    text.put_all::<P>(&[BeginObject(at), field])?;
    let bitmaps = Member(Key::Bitmaps, 1, 1);
    let Some(pair) = &link.bitmaps else {
        return text.put_all::<P>(&[Value(bitmaps, Absent), EndObject(at)]);
    };
    P::put(text, BeginObject(bitmaps))?;
    append_bitmap::<P>(text, Member(Key::Delete, 2, 0), 3, &pair.delete)?;
    append_bitmap::<P>(text, Member(Key::Replace, 2, 1), 3, &pair.replace)?;
    text.put_all::<P>(&[EndObject(bitmaps), EndObject(at)])
}

/// Returns the event of a token: the time of the monitor's last query, or its text.
#[tactic(auto, unfolding(crate::specs::Bitmaps::token_event))]
fn event_of_token<'a>(token: &'a Token) -> Event<'a>
    ensures { event_of result ≡ token_event (token_value token.now) }
{
    match token {
        Token::V1 { nanos_since_1970 } => {
            Value(Member(Key::NanosSince1970, 1, 0), Number(*nanos_since_1970))
        }
        Token::V2 { token } => Bytes(Member(Key::Token, 1, 0), token.as_bytes()),
    }
}

/// Appends the file system monitor: its token, and which entries may have changed.
pub fn append_monitor<P: Printer>(text: &mut Text, monitor: Option<&FsMonitor>) -> Appended
    ensures { AddsEvents P.spell result text.old text.new
        (monitor_events (option_map (λ m. monitor_of m.now) monitor.entry)) }
{
    let at = Member(Key::FsMonitor, 0, 8);
    let Some(monitor) = monitor else {
        return P::put(text, Value(at, Absent));
    };
    text.put_all::<P>(&[BeginObject(at), event_of_token(monitor.token())])?;
    append_bitmap::<P>(
        text,
        Member(Key::EntryDirty, 1, 1),
        2,
        monitor.entry_dirty(),
    )?;
    P::put(text, EndObject(at))
}
