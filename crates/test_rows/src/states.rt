//! Rows about a complete index, which is read or written.

use crate::cuts::Cuts;
use crate::reading::{Reading, read};
use crate::{cuts, prefixes, show};
use gix_index::hash::Kind;
use gix_index::hash::io::Plain;
use gix_index::{File, State, decode, write};
use std::path::PathBuf;
use test_row_kit::show::{Bytes, version_of, yes};
use test_row_kit::{Fault, Lines, Words, refusal};

/// The calls about an index.
#[derive(Clone, Copy)]
pub enum Call {
    /// `state`: decodes bytes.
    State,
    /// `file`: decodes bytes as a file, and compares the digest first.
    File,
    /// `fronts`: decodes each prefix of bytes.
    Fronts,
    /// `file-fronts`: decodes each prefix of bytes as a file, and compares the digest first.
    FileFronts,
    /// `entry`: writes one entry.
    Entry,
    /// `body`: writes a state without a trailer.
    Body,
    /// `write`: writes a file.
    Write,
    /// `copy`: clones a state.
    Copy,
    /// `cuts`: writes a state to a writer that fails.
    Cuts,
    /// `entry-cuts`: writes one entry to a writer that fails.
    EntryCuts,
}

impl Call {
    /// Returns the call of this name.
    pub fn named(word: &str) -> Option<Call> {
        match word {
            "state" => Some(Call::State),
            "file" => Some(Call::File),
            "fronts" => Some(Call::Fronts),
            "file-fronts" => Some(Call::FileFronts),
            "entry" => Some(Call::Entry),
            "body" => Some(Call::Body),
            "write" => Some(Call::Write),
            "copy" => Some(Call::Copy),
            "cuts" => Some(Call::Cuts),
            "entry-cuts" => Some(Call::EntryCuts),
            _ => None,
        }
    }

    /// Appends the lines of the call's answer. `words` are the arguments after the call.
    pub fn answer(self, words: &mut Words<'_>, out: &mut Lines) -> Result<(), Fault> {
        let kind = words.kind()?;
        match self {
            Call::State | Call::File | Call::Fronts | Call::FileFronts => {
                let bytes = words.bytes()?;
                self.answer_bytes(kind, &bytes, words, out)
            }
            _ => match words.state(kind)? {
                Ok(state) => self.answer_state(state, words, out),
                Err(e) => {
                    refusal::decode(out, &e);
                    Ok(())
                }
            },
        }
    }

    /// Appends the lines of a call that decodes bytes.
    fn answer_bytes(
        self,
        kind: Kind,
        bytes: &[u8],
        words: &mut Words<'_>,
        out: &mut Lines,
    ) -> Result<(), Fault> {
        let reading = match self {
            Call::File | Call::FileFronts => Reading::File {
                skip_hash: words.has("unchecked"),
            },
            _ => Reading::State(decode::Options {
                alloc_limit_bytes: words.number_named("limit")?,
                expected_checksum: words.id_named("expected")?,
                ..decode::Options::default()
            }),
        };
        match self {
            Call::State | Call::File => {
                if let Some((state, checksum)) = read(out, kind, bytes, reading)? {
                    show::state::state(out, &state, checksum);
                }
            }
            _ => prefixes::prefixes(out, kind, bytes, reading)?,
        }
        Ok(())
    }

    /// Appends the lines of a call about a state.
    fn answer_state(
        self,
        state: State,
        words: &mut Words<'_>,
        out: &mut Lines,
    ) -> Result<(), Fault> {
        match self {
            Call::Entry => entry(&state, words, out)?,
            Call::Body => body(out, &state),
            Call::Copy => copy(out, &state),
            Call::Cuts => Cuts::of_words(words).answer(out, state)?,
            Call::EntryCuts => cuts::entry(out, &state, words)?,
            _ => file(out, state, words.has("null")),
        }
        Ok(())
    }
}

/// Appends the lines of a clone of the state.
fn copy(out: &mut Lines, state: &State) {
    match state.clone() {
        Ok(state) => show::state::state(out, &state, None),
        Err(_) => out.put("fault", "memory"),
    }
}

fn entry(state: &State, words: &mut Words<'_>, out: &mut Lines) -> Result<(), Fault> {
    let place: usize = words.number()?;
    if place >= state.entries().len() {
        return Err(Fault::Wrong("the place of an entry"));
    }
    let mut image = Plain::new(Vec::new(out.alloc()));
    state.entry(place).write_to(&mut image, state)?;
    out.put("write_to", Bytes(&image.inner));
    let previous: &[u8] = match place.checked_sub(1) {
        Some(place) => state.entry(place).path(state),
        None => b"",
    };
    let mut image = Plain::new(Vec::new(out.alloc()));
    state
        .entry(place)
        .write_delta_to(&mut image, state, previous)?;
    out.put("write_delta_to", Bytes(&image.inner));
    Ok(())
}

fn body(out: &mut Lines, state: &State) {
    let mut image = Plain::new(Vec::new(out.alloc()));
    match state.write_to(&mut image, write::Options::default()) {
        Ok(version) => {
            out.put("version", version_of(version));
            out.put("bytes", Bytes(&image.inner));
        }
        Err(e) => refusal::write(out, &e),
    }
    out.put("paths_without_nul", yes(state.paths_without_nul()));
}

fn file(out: &mut Lines, state: State, skip_hash: bool) {
    let options = write::Options {
        skip_hash,
        ..write::Options::default()
    };
    let file = File::from_state(state, PathBuf::new(out.alloc()));
    let mut image = Plain::new(Vec::new(out.alloc()));
    match file.write_to(&mut image, options) {
        Ok((version, id)) => {
            out.put("version", version_of(version));
            out.put("checksum", id);
            out.put("bytes", Bytes(&image.inner));
        }
        Err(e) => refusal::write(out, &e),
    }
}
