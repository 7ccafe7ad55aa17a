//! Parses a list of entries, and the fields of one entry.

use super::text::text_of;
use super::{byte_of, digits_of, hex_of, items_of, number_of, octal_of};
use crate::fault::Fault;
use gix_index::entry::stat::Time;
use gix_index::entry::{FileTime, Flags, Mode, Stage, Stat};
use gix_index::hash::{Kind, ObjectId};
use gix_index::{BitFlags as _, State};
use std::alloc::Global;

/// Returns a new state with the entries of a list, pushed in the order of the list.
pub fn state_of(alloc: Global, kind: Kind, list: &str) -> Result<State, Fault> {
    let mut state = State::new(alloc, kind, FileTime::EPOCH);
    for item in &items_of(alloc, list)? {
        push(alloc, &mut state, kind, item)?;
    }
    Ok(state)
}

/// Pushes one entry. A field that is left out is stage 0, mode 100644, no flags, the id of bytes 11, or a stat of
/// zeros.
fn push(alloc: Global, state: &mut State, kind: Kind, item: &str) -> Result<(), Fault> {
    let mut fields = item.split(':');
    let path = text_of(alloc, field_of(fields.next(), ""))?;
    let stage = stage_of(field_of(fields.next(), "0"))?;
    let mode = Mode::from_bits_retain(octal_of(field_of(fields.next(), "100644"))?);
    let flags = Flags::from_bits_retain(hex_of(field_of(fields.next(), "0"))?);
    let id = id_of(alloc, kind, field_of(fields.next(), "11"))?;
    let stat = stat_of(field_of(fields.next(), "0.0,0.0,0,0,0,0,0"))?;
    if fields.next().is_some() {
        return Err(Fault::Wrong("the six fields of an entry"));
    }
    let flags = Flags::from_stage(stage).union(flags);
    state.dangerously_push_entry(stat, id, flags, mode, &path)?;
    Ok(())
}

/// Returns the field, or `absent` if the field is missing or empty.
fn field_of<'a>(field: Option<&'a str>, absent: &'a str) -> &'a str {
    match field {
        Some(field) if !field.is_empty() => field,
        _ => absent,
    }
}

/// Parses a stage, as one digit.
pub fn stage_of(word: &str) -> Result<Stage, Fault> {
    match word {
        "0" => Ok(Stage::Unconflicted),
        "1" => Ok(Stage::Base),
        "2" => Ok(Stage::Ours),
        "3" => Ok(Stage::Theirs),
        _ => Err(Fault::Wrong("a stage from 0 to 3")),
    }
}

/// Parses an id: all of its digits, or two digits for an id whose bytes are all that one.
pub fn id_of(alloc: Global, kind: Kind, word: &str) -> Result<ObjectId, Fault> {
    if word.len() > 2 {
        let bytes = digits_of(alloc, word.as_bytes(), "the digits of an id")?;
        return match ObjectId::from_bytes(&bytes) {
            Some(id) if id.kind() == kind => Ok(id),
            _ => Err(Fault::Wrong("an id of the kind")),
        };
    }
    let byte = byte_of(word)?;
    match kind {
        Kind::Sha1 => Ok(ObjectId::Sha1([byte; 20])),
        Kind::Sha256 => Ok(ObjectId::Sha256([byte; 32])),
    }
}

/// Parses the time of an entry: seconds and nanoseconds with a point between.
pub fn time_of(word: &str) -> Result<Time, Fault> {
    let Some((secs, nsecs)) = word.split_once('.') else {
        return Err(Fault::Wrong("a time"));
    };
    Ok(Time {
        secs: number_of(secs)?,
        nsecs: number_of(nsecs)?,
    })
}

/// Parses a stat: its numbers in the order of the index, joined by `,`.
pub fn stat_of(word: &str) -> Result<Stat, Fault> {
    let mut numbers = word.split(',');
    let stat = Stat {
        ctime: time_of(numbers.next().unwrap_or(""))?,
        mtime: time_of(numbers.next().unwrap_or(""))?,
        dev: number_of(numbers.next().unwrap_or(""))?,
        ino: number_of(numbers.next().unwrap_or(""))?,
        uid: number_of(numbers.next().unwrap_or(""))?,
        gid: number_of(numbers.next().unwrap_or(""))?,
        size: number_of(numbers.next().unwrap_or(""))?,
    };
    if numbers.next().is_some() {
        return Err(Fault::Wrong("the seven numbers of a stat"));
    }
    Ok(stat)
}
