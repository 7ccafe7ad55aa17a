//! The lines of entries.

ghost use Rattle.std.specs.Prelude.{◌≡◌, ◌++◌, ◌+◌, ◌≤◌, codes, length};
ghost use Rattle.view_events.specs.Event.{Adds, record_at};
ghost use Rattle.view_show.specs.Entries.{entry_lines, flags_line, mode_word, shown_mode, stat_lines, time_field, word_if};
ghost use Rattle.view_show.specs.Fields.{field, number_line, text_line};
ghost use Rattle.base_text.specs.Prepending.{HasRoomBefore, Prepends};

use crate::prepend::{prepend_id, prepend_name, prepend_nanoseconds, prepend_number};
use base_text::append::Appended;
use base_text::escape::append_escaped;
use base_text::prepend::{prepend, prepend_decimal, prepend_octal};
use bitflags::Flags as _;
use entry_fields::entry::stat::Time;
use entry_fields::entry::{Mode, Stat};
use entry_list::Entry;

/// The maximum length of the lines of a stat in bytes, with six spaces of indent.
const STAT_LEN: usize = 275;

/// The maximum length in bytes of the lines of an entry after that of its path.
const BEHIND_PATH_LEN: usize = 479;

/// The maximum length in bytes of the line of an entry's number and the prefix of its path.
const PLACE_LEN: usize = 40;

/// Returns the description of a mode.
#[tactic(auto, unfolding(crate::specs::Entries::mode_word))]
fn mode_word<'a>(mode: Mode) -> &'a [u8]
    ensures word { result.now ≡ mode_word mode.0 }
    ensures short { length result.now ≤ 11 }
{
    match mode {
        Mode::DIR => b" directory",
        Mode::FILE => b" file",
        Mode::FILE_EXECUTABLE => b" executable",
        Mode::SYMLINK => b" symlink",
        Mode::COMMIT => b" submodule",
        _ => b" other",
    }
}

/// Writes the line of a mode before index `end` of `room`. Returns the index of its first byte.
#[tactic(auto, unfolding(crate::specs::Fields::field))]
fn prepend_mode(room: &mut [u8], end: usize, mode: Mode) -> usize
    requires { HasRoomBefore room.old end 33 }
    ensures { Prepends room.old room.new end 33 result
        (field (codes "    ") (codes "mode") (shown_mode mode.0)) }
{
    let end = prepend(room, end, b"\n");
    let end = prepend(room, end, mode_word(mode));
    let end = prepend_octal(room, end, mode.bits());
    prepend_name(room, end, b"    ", b"mode")
}

/// Writes `word` before index `end` of `room` if `is_so`. Returns the index of its first byte.
#[inline(always)]
#[tactic(auto, unfolding(crate::specs::Entries::word_if))]
fn prepend_if(room: &mut [u8], end: usize, is_so: bool, word: &[u8]) -> usize
    requires { HasRoomBefore room.old end (length word.now) }
    ensures { Prepends room.old room.new end (length word.now) result (word_if is_so word.now) }
{
    if is_so {
        return prepend(room, end, word);
    }
    end
}

/// Writes the line of flags before index `end` of `room`: a word for each, or ` none`. Returns the index of its first
/// byte.
#[tactic(auto, unfolding(crate::specs::Entries::flags_line))]
fn prepend_flags(room: &mut [u8], end: usize, flags: u32) -> usize
    requires { HasRoomBefore room.old end 66 }
    ensures { Prepends room.old room.new end 66 result (flags_line flags) }
{
    let end = prepend(room, end, b"\n");
    let end = prepend_if(room, end, flags & 0x6000_C000 == 0, b" none");
    let end = prepend_if(room, end, flags & 0x4000_0000 != 0, b" skip-worktree");
    let end = prepend_if(room, end, flags & 0x2000_0000 != 0, b" intent-to-add");
    let end = prepend_if(room, end, flags & 0x4000 != 0, b" extended");
    let end = prepend_if(room, end, flags & 0x8000 != 0, b" assume-valid");
    prepend(room, end, b"    flags:")
}

/// Writes the line of a time before index `end` of `room`. Returns the index of its first byte.
#[inline(always)]
#[tactic(auto, unfolding(crate::specs::Fields::field))]
fn prepend_time(room: &mut [u8], end: usize, indent: &[u8], name: &[u8], time: Time) -> usize
    requires { HasRoomBefore room.old end (length indent.now + length name.now + 44) }
    ensures { Prepends room.old room.new end (length indent.now + length name.now + 44) result
        (time_field indent.now name.now time) }
{
    let end = prepend(room, end, b"\n");
    let end = prepend_nanoseconds(room, end, time.nsecs);
    let end = prepend(room, end, b".");
    let end = prepend_decimal(room, end, u64::from(time.secs));
    prepend_name(room, end, indent, name)
}

/// Writes the lines of a stat before index `end` of `room`. Returns the index of the first byte.
#[inline(always)]
#[tactic(auto, unfolding(crate::specs::Entries::stat_lines))]
fn prepend_stat(room: &mut [u8], end: usize, indent: &[u8], stat: Stat) -> usize
    requires room { HasRoomBefore room.old end 275 }
    requires short { length indent.now ≤ 6 }
    ensures { Prepends room.old room.new end 275 result (stat_lines indent.now stat) }
{
    let end = prepend_number(room, end, indent, b"gid", u64::from(stat.gid));
    let end = prepend_number(room, end, indent, b"uid", u64::from(stat.uid));
    let end = prepend_number(room, end, indent, b"ino", u64::from(stat.ino));
    let end = prepend_number(room, end, indent, b"dev", u64::from(stat.dev));
    let end = prepend_time(room, end, indent, b"ctime", stat.ctime);
    let end = prepend_time(room, end, indent, b"mtime", stat.mtime);
    prepend_number(room, end, indent, b"size", u64::from(stat.size))
}

/// Appends the lines of a stat.
#[inline(always)]
fn append_stat(lines: &mut Vec<u8>, indent: &[u8], stat: Stat) -> Appended
    requires { length indent.now ≤ 6 }
    ensures { Adds result lines.old lines.new (stat_lines indent.now stat) }
{
    let mut room = [0; STAT_LEN];
    let start = prepend_stat(&mut room, STAT_LEN, indent, stat);
    lines.extend_from_slice(&room[start..])
}

/// Appends the lines of the stat of a file that a field names. (It is a function of its own so that a printer of events
/// stays small.)
#[inline(never)]
pub fn append_file_stat(lines: &mut Vec<u8>, stat: Stat) -> Appended
    ensures { Adds result lines.old lines.new (stat_lines (codes "    ") stat) }
{
    append_stat(lines, b"    ", stat)
}

/// Appends the lines of the stat of a directory. They have a deeper indent than those of a file.
#[inline(never)]
pub fn append_directory_stat(lines: &mut Vec<u8>, stat: Stat) -> Appended
    ensures { Adds result lines.old lines.new (stat_lines (codes "      ") stat) }
{
    append_stat(lines, b"      ", stat)
}

/// Appends the line of an entry's number, and the line of its path.
#[tactic(auto, unfolding(crate::specs::Fields::field))]
fn append_place(lines: &mut Vec<u8>, place: usize, path: &[u8]) -> Appended
    ensures { Adds result lines.old lines.new
        (number_line (codes "  ") (codes "entry") place
        ++ text_line (codes "    ") (codes "path") path.now) }
{
    let mut room = [0; PLACE_LEN];
    let start = prepend_name(&mut room, PLACE_LEN, b"    ", b"path");
    let start = prepend_number(&mut room, start, b"  ", b"entry", place as u64);
    lines.extend_from_slice(&room[start..])?;
    append_escaped(lines, path)?;
    lines.extend_from_slice(b"\n")
}

/// Appends the lines of an entry.
#[tactic(auto, unfolding(crate::specs::Entries::entry_lines))]
pub fn append_entry(lines: &mut Vec<u8>, place: usize, entry: &Entry, path: &[u8]) -> Appended
    ensures { Adds result lines.old lines.new (entry_lines place (record_at path.now entry.now)) }
{
    let stage = u64::from(entry.stage_raw());
    let mut room = [0; BEHIND_PATH_LEN];
    let start = prepend_stat(&mut room, BEHIND_PATH_LEN, b"    ", entry.stat);
    let start = prepend_flags(&mut room, start, entry.flags.bits());
    let start = prepend_number(&mut room, start, b"    ", b"stage", stage);
    let start = prepend_mode(&mut room, start, entry.mode);
    let start = prepend_id(&mut room, start, &entry.id);
    append_place(lines, place, path)?;
    lines.extend_from_slice(&room[start..])
}
