//! The part of a line before the tab: a mode, an id, and a type or a stage.

ghost use Rattle.std.specs.Prelude.{◌≡◌, ◌==◌, position, option_map};
ghost use Rattle.entry_info.specs.Line.{split_at_first, entry_given, entry_so, id_and_stage_of, id_given, map_read};
ghost use Rattle.entry_info.specs.Line.{stage_given, two_words};
ghost use Rattle.std.specs.Str.{byte};

use crate::error::Fault;
use crate::mode::kept_mode;
use bitflags::Flags as _;
use entry_fields::entry::{Flags, Mode, Stage, Stat};
use entry_list::Pathless;
use hex::FromHex;
use index_parts::hash::{Kind, ObjectId};
use index_parts::read;
use memchr::memchr;

/// Returns the index of the first byte of this value.
pub(crate) fn place_of(text: &[u8], byte: u8) -> Option<usize>
    ensures { result ≡ position (λ b. b == byte) text.now }
{
    memchr(byte, text)
}

/// Returns the bytes before and after the first byte of this value, or None if no byte has it.
pub(crate) fn split_at_first(text: &[u8], byte: u8) -> Option<(&[u8], &[u8])>
    ensures { option_map (λ p. (p.0.now, p.1.now)) result ≡ split_at_first byte text.now }
{
    let place = place_of(text, byte)?;
    Some((&text[..place], &text[place + 1..]))
}

/// Returns the stage with this digit.
fn stage_given(text: &[u8]) -> Result<Stage, Fault>
    ensures { result ≡ stage_given text.now }
{
    match text {
        b"0" => Ok(Stage::Unconflicted),
        b"1" => Ok(Stage::Base),
        b"2" => Ok(Stage::Ours),
        b"3" => Ok(Stage::Theirs),
        _ => Err(Fault::Stage),
    }
}

/// Returns the id with these digits.
fn id_given(kind: Kind, text: &[u8]) -> Result<ObjectId, Fault>
    ensures { result ≡ id_given kind text.now }
{
    match kind {
        Kind::Sha1 => match <[u8; 20] as FromHex>::from_hex(text) {
            Ok(bytes) => Ok(ObjectId::Sha1(bytes)),
            Err(_) => Err(Fault::Id { digits: 40 }),
        },
        Kind::Sha256 => match <[u8; 32] as FromHex>::from_hex(text) {
            Ok(bytes) => Ok(ObjectId::Sha256(bytes)),
            Err(_) => Err(Fault::Id { digits: 64 }),
        },
    }
}

/// Returns the id and the stage of two fields. A second field of one character is a stage. Otherwise the id is the
/// second field, after a type.
fn two_words<'a>(first: &'a [u8], second: &'a [u8]) -> Result<(&'a [u8], &'a [u8]), Fault>
    ensures { map_read (λ p. (p.0.now, p.1.now)) result ≡ two_words first.now second.now }
{
    if second.len() == 1 {
        return Ok((first, second));
    }
    match split_at_first(second, b' ') {
        None => Ok((second, b"0")),
        Some(_) => Err(Fault::Words),
    }
}

/// Returns the fields of the id and of the stage, from the text after the mode.
fn id_and_stage(text: &[u8]) -> Result<(&[u8], &[u8]), Fault>
    ensures { map_read (λ p. (p.0.now, p.1.now)) result
        ≡ id_and_stage_of text.now (split_at_first (byte " ") text.now) }
{
    match split_at_first(text, b' ') {
        None => Ok((text, b"0")),
        Some((first, second)) => two_words(first, second),
    }
}

/// Returns the entry with this mode, or None if the mode is 0.
fn entry_so(given: u32, stage: Stage, id: ObjectId) -> Option<Pathless>
    ensures { result ≡ entry_so given stage id }
{
    if given == 0 {
        return None;
    }
    Some(Pathless {
        stat: Stat::default(),
        id,
        flags: Flags::from_stage(stage),
        mode: Mode::from_bits_retain(kept_mode(given)),
    })
}

/// Returns the entry of the text before the tab, which is staged, or None if the path is removed.
#[tactic(auto, unfolding(crate::specs::Line::entry_given))]
pub(crate) fn entry_given(kind: Kind, head: &[u8]) -> Result<Option<Pathless>, Fault>
    ensures { result ≡ entry_given kind head.now }
{
    let (mode, rest) = split_at_first(head, b' ').ok_or(Fault::NoId)?;
    let (id, stage) = id_and_stage(rest)?;
    let mode = read::octal(mode).ok_or(Fault::Mode)?;
    let stage = stage_given(stage)?;
    let id = id_given(kind, id)?;
    Ok(entry_so(mode, stage, id))
}
