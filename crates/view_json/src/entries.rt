//! The values of entries.

ghost use Rattle.std.specs.Prelude.{◌+◌, [], ◌++◌, decimal, length};
ghost use Rattle.entry_list.specs.Record.{record_in};
ghost use Rattle.view_events.specs.Event.{Adds, record_at};
ghost use Rattle.base_text.specs.Prepending.{HasRoomBefore, Prepends};
ghost use Rattle.view_json.specs.EntryValues.{behind_path, entry_value, stat_value, time_value};
ghost use Rattle.view_json.specs.Names.{as_position};
ghost use Rattle.view_json.specs.Values.{begin_of, separator};

use crate::position::Position;
use crate::values::{append_piece, append_text};
use base_text::append::Appended;
use base_text::prepend::{prepend, prepend_decimal, prepend_hex};
use bitflags::Flags as _;
use entry_fields::entry::Stat;
use entry_fields::entry::stat::Time;
use entry_list::Entry;

/// The maximum length of a stat in bytes.
const STAT_LEN: usize = 271;

/// The maximum length in bytes of an entry after its path.
const BEHIND_PATH_LEN: usize = 438;

/// Writes `before` and a number, which end before index `end` of `room`. `before` is its name and punctuation. Returns
/// the index of the first byte.
#[inline(always)]
fn prepend_number(room: &mut [u8], end: usize, before: &[u8], n: u32) -> usize
    requires { HasRoomBefore room.old end (length before.now + 20) }
    ensures { Prepends room.old room.new end (length before.now + 20) result
        (before.now ++ decimal n) }
{
    let end = prepend_decimal(room, end, u64::from(n));
    prepend(room, end, before)
}

/// Writes `before` and a time, which end before index `end` of `room`. Returns the index of the first byte.
#[inline(always)]
#[tactic(auto, unfolding(crate::specs::Values::member))]
fn prepend_time(room: &mut [u8], end: usize, before: &[u8], time: Time) -> usize
    requires { HasRoomBefore room.old end (length before.now + 58) }
    ensures { Prepends room.old room.new end (length before.now + 58) result
        (before.now ++ time_value time) }
{
    let end = prepend(room, end, b"}");
    let end = prepend_number(room, end, b",\"nsecs\":", time.nsecs);
    let end = prepend_number(room, end, b"{\"secs\":", time.secs);
    prepend(room, end, before)
}

/// Writes a stat before index `end` of `room`. Returns the index of the first byte.
#[inline(always)]
fn prepend_stat(room: &mut [u8], end: usize, stat: Stat) -> usize
    requires { HasRoomBefore room.old end 271 }
    ensures { Prepends room.old room.new end 271 result (stat_value stat) }
{
    let end = prepend(room, end, b"}");
    let end = prepend_number(room, end, b",\"size\":", stat.size);
    let end = prepend_number(room, end, b",\"gid\":", stat.gid);
    let end = prepend_number(room, end, b",\"uid\":", stat.uid);
    let end = prepend_number(room, end, b",\"ino\":", stat.ino);
    let end = prepend_number(room, end, b",\"dev\":", stat.dev);
    let end = prepend_time(room, end, b",\"ctime\":", stat.ctime);
    prepend_time(room, end, b"{\"mtime\":", stat.mtime)
}

/// Appends a stat at its position.
pub fn append_stat(text: &mut Vec<u8>, position: Position<'_>, stat: Stat) -> Appended
    ensures { Adds result text.old text.new
        (begin_of (as_position position.entry) ++ stat_value stat) }
{
    let mut room = [0; STAT_LEN];
    let start = prepend_stat(&mut room, STAT_LEN, stat);
    append_piece(text, position, &room[start..])
}

/// Appends the members of an entry after its path.
#[tactic(auto, unfolding(crate::specs::Values::member))]
fn append_behind_path(text: &mut Vec<u8>, entry: &Entry) -> Appended
    ensures { Adds result text.old text.new (behind_path (record_in [] entry.now)) }
{
    let stage = u32::from(entry.stage_raw());
    let mut room = [0; BEHIND_PATH_LEN];
    let start = prepend(&mut room, BEHIND_PATH_LEN, b"}");
    let start = prepend_stat(&mut room, start, entry.stat);
    let start = prepend(&mut room, start, b",\"stat\":");
    let start = prepend_number(&mut room, start, b",\"flags\":", entry.flags.bits());
    let start = prepend_number(&mut room, start, b",\"stage\":", stage);
    let start = prepend_number(&mut room, start, b"\",\"mode\":", entry.mode.bits());
    let start = prepend_hex(&mut room, start, &entry.id);
    let start = prepend(&mut room, start, b",\"id\":\"");
    text.extend_from_slice(&room[start..])
}

/// Appends an entry. A comma precedes each entry except the first.
#[tactic(auto, unfolding(crate::specs::EntryValues::entry_value))]
pub fn append_entry(text: &mut Vec<u8>, place: usize, entry: &Entry, path: &[u8]) -> Appended
    ensures { Adds result text.old text.new
        (separator place ++ entry_value (record_at path.now entry.now)) }
{
    if place == 0 {
        text.extend_from_slice(b"{")?;
    } else {
        text.extend_from_slice(b",{")?;
    }
    append_text(text, Position::First(b"path"), path)?;
    append_behind_path(text, entry)
}
