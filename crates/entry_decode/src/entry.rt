//! One entry at the start of bytes, as borrowed pieces. It is for a reader that steps over a file's entries and stores
//! none of them.

ghost use Rattle.std.specs.Prelude.{◌≡◌, ◌≤◌, drop, length, take, unwrap_or, IfNone, IfSome};
ghost use Rattle.std.specs.Option.{option_map};
ghost use Rattle.entry_fields.specs.Flags.{stored_flags, joined_words};
ghost use Rattle.index_parts.specs.Id.{id_kind};
ghost use Rattle.entry_fields.specs.Stat.{stat_of};
ghost use Rattle.entry_decode.specs.Lent.{HasNoEntry, IsBorrowedEntry};
ghost use Rattle.entry_decode.specs.LentSteps.{HasNoEntry23, HasNoEntry4, HasRecordOf, IsLentEntry23};
ghost use Rattle.entry_decode.specs.LentSteps.{IsLentEntry4, lent_head, lent_pieces23, lent_pieces4};
ghost use Rattle.entry_list.specs.EntrySteps.{IsLong, second_at, head_at, path_at, entry23_at, shared_of, entry4_at};

use bitflags::Flags as _;
use entry_fields::entry::{Flags, Mode, Stat};
use entry_fields::read::stat;
use entry_list::sizes::{ENTRY_ALIGN, FLAGS_LEN, NUMBERS_LEN};
use entry_list::{Pathless, Version};
use index_parts::hash::{Kind, ObjectId};
use index_parts::read;
use index_parts::util::from_be_u16;

/// The start of the mode in the bytes of an entry's numbers.
const MODE_START: usize = 24;

/// The end of the mode in the bytes of an entry's numbers.
const MODE_END: usize = 28;

/// An entry up to its path, with both words of its flags. The second is 0 if it is missing.
#[derive(Clone, Copy)]
pub(super) struct EntryHead<'a> {
    numbers: &'a [u8],
    id: &'a [u8],
    flags: u16,
    extended: u16,
}

/// An entry as borrowed pieces. Its path is a prefix of the path before it, and bytes that were read.
#[derive(Clone, Copy)]
pub struct Lent<'a> {
    /// The length of the prefix of the path before it, in bytes. It is 0 in versions 2 and 3.
    pub shared: usize,
    /// The path's bytes after that prefix.
    pub path: &'a [u8],
    /// The entry without its path.
    pub entry: Pathless,
}

/// Returns the second word if the first one requires it, else 0, and the bytes after it.
#[tactic(auto, unfolding(entry_list::specs::EntrySteps::second_at))]
fn second_of(word: u16, bytes: &[u8]) -> Option<(u16, &[u8])>
    ensures { option_map (λ x. (x.0, x.1.now)) result ≡ second_at word bytes.now }
{
    if word & 0x4000 != 0x4000 {
        return Some((0, bytes));
    }
    let (second, rest) = read::piece(bytes, FLAGS_LEN)?;
    let second = from_be_u16(second);
    if second & 0x6000 != second {
        return None;
    }
    Some((second, rest))
}

#[tactic(auto, unfolding(entry_list::specs::EntrySteps::head_at))]
fn head_of(kind: Kind, bytes: &[u8]) -> Option<(EntryHead<'_>, &[u8])>
    ensures { option_map (λ x. (lent_head x.0, x.1.now)) result ≡ head_at kind bytes.now }
{
    let (numbers, rest) = read::piece(bytes, NUMBERS_LEN)?;
    let (id, rest) = read::piece(rest, kind.len_in_bytes())?;
    let (word, rest) = read::piece(rest, FLAGS_LEN)?;
    let flags = from_be_u16(word);
    let (extended, rest) = second_of(flags, rest)?;
    Some((
        EntryHead {
            numbers,
            id,
            flags,
            extended,
        },
        rest,
    ))
}

/// Returns the path of an entry of version 2 or 3 with this length field, and the bytes after it.
#[tactic(auto, unfolding(entry_list::specs::EntrySteps::path_at))]
fn path_of(field: u16, bytes: &[u8]) -> Option<(&[u8], &[u8])>
    ensures { option_map (λ x. (x.0.now, x.1.now)) result ≡ path_at field bytes.now }
{
    if field == 0x0fff {
        let (path, _) = read::up_to(bytes, 0)?;
        return read::piece(bytes, path.len());
    }
    read::piece(bytes, field as usize)
}

#[tactic(auto, unfolding(entry_list::specs::EntrySteps::entry23_at))]
fn pieces23_of(kind: Kind, bytes: &[u8]) -> Option<((EntryHead<'_>, &[u8]), &[u8])>
    ensures { option_map lent_pieces23 result ≡ entry23_at kind bytes.now }
{
    let (head, rest) = head_of(kind, bytes)?;
    let (path, rest) = path_of(head.flags & 0x0fff, rest)?;
    let taken = bytes.len() - rest.len();
    let (_, rest) = read::piece(rest, ENTRY_ALIGN - taken % ENTRY_ALIGN)?;
    Some(((head, path), rest))
}

/// Returns the stat of an entry's ten numbers. The seventh of them is the mode.
fn stat_of(numbers: &[u8]) -> Stat
    requires { length numbers.now ≡ 40 }
    ensures { result ≡ stat_of (take 24 numbers.now) (drop 28 numbers.now) }
{
    stat(&numbers[..MODE_START], &numbers[MODE_END..])
}

/// Returns the flags in memory for two words of flags.
fn flags_of(word: u16, second: u16) -> Flags
    ensures { result.0 ≡ stored_flags (joined_words word second) }
{
    Flags::from_bits_retain(u32::from(word) | (u32::from(second) << 16)).to_stored()
}

/// Returns the entry of these pieces.
#[inline(always)]
fn lent_of<'a>(kind: Kind, head: EntryHead<'a>, shared: usize, path: &'a [u8]) -> Lent<'a>
    requires { IsLong kind (lent_head head) }
    ensures shared { result.shared ≡ shared }
    ensures kind { id_kind result.entry.id ≡ kind }
    ensures record { HasRecordOf kind (lent_head head.entry) shared path.now result }
{
    Lent {
        shared,
        path,
        entry: Pathless {
            stat: stat_of(head.numbers),
            id: ObjectId::of_kind(kind, head.id),
            flags: flags_of(head.flags, head.extended),
            mode: Mode::from_bits_retain(read::number(head.numbers, 6)).to_stored(),
        },
    }
}

/// Returns the entry of version 2 or 3 at the start, and the bytes after its padding.
#[inline(always)]
fn entry23_of(kind: Kind, bytes: &[u8]) -> Option<(Lent<'_>, &[u8])>
    ensures found { IfSome result (λ x. IsLentEntry23 kind bytes.now x.0 x.1.now) }
    ensures none { IfNone result (HasNoEntry23 kind bytes.now) }
    ensures shared { IfSome result (λ x. x.0.shared ≡ 0) }
    ensures kind { IfSome result (λ x. id_kind x.0.entry.id ≡ kind) }
{
    let ((head, path), rest) = pieces23_of(kind, bytes)?;
    Some((lent_of(kind, head, 0, path), rest))
}

/// Returns the length of the rest of a path with `room` bytes after `stripped` bytes are removed.
fn shared_len_of(room: Option<usize>, stripped: u64) -> Option<usize>
    ensures { result ≡ shared_of room stripped }
{
    let Some(len) = room else {
        return Some(0);
    };
    if stripped > len as u64 {
        return None;
    }
    Some(len - stripped as usize)
}

#[inline(always)]
#[tactic(auto, unfolding(entry_list::specs::EntrySteps::entry4_at))]
fn pieces4_of(
    kind: Kind,
    room: Option<usize>,
    bytes: &[u8],
) -> Option<((EntryHead<'_>, usize, &[u8]), &[u8])>
    ensures { option_map lent_pieces4 result ≡ entry4_at kind room bytes.now }
{
    let (head, rest) = head_of(kind, bytes)?;
    let (stripped, rest) = read::offset(rest)?;
    let shared = shared_len_of(room, stripped)?;
    let (tail, rest) = read::up_to(rest, 0)?;
    Some(((head, shared, tail), rest))
}

/// Returns the entry of version 4 at the start, and the bytes after it. The path before it has `room` bytes; None is no
/// path.
#[inline(always)]
fn entry4_of(kind: Kind, room: Option<usize>, bytes: &[u8]) -> Option<(Lent<'_>, &[u8])>
    ensures found { IfSome result (λ x. IsLentEntry4 kind room bytes.now x.0 x.1.now) }
    ensures none { IfNone result (HasNoEntry4 kind room bytes.now) }
    ensures shared { IfSome result (λ x. x.0.shared ≤ unwrap_or room 0) }
    ensures kind { IfSome result (λ x. id_kind x.0.entry.id ≡ kind) }
{
    let ((head, shared, tail), rest) = pieces4_of(kind, room, bytes)?;
    Some((lent_of(kind, head, shared, tail), rest))
}

/// Returns the entry of a version at the start, and the bytes after it. The path before it has `room` bytes; None is no
/// path. The result is None if the bytes begin with no entry. Only the numbers are copied.
#[inline(always)]
pub fn entry_of(
    version: Version,
    kind: Kind,
    room: Option<usize>,
    bytes: &[u8],
) -> Option<(Lent<'_>, &[u8])>
    ensures found { IfSome result (λ x. IsBorrowedEntry version kind room bytes.now x.0 x.1.now) }
    ensures none { IfNone result (HasNoEntry version kind room bytes.now) }
    ensures shared { IfSome result (λ x. x.0.shared ≤ unwrap_or room 0) }
    ensures kind { IfSome result (λ x. id_kind x.0.entry.id ≡ kind) }
{
    match version {
        Version::V2 | Version::V3 => entry23_of(kind, bytes),
        Version::V4 => entry4_of(kind, room, bytes),
    }
}
