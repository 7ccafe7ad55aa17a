//! Rows about numbers, pieces and digests of bytes, and about the number of entries that a file can hold.

use gix_index::decode::entries::{
    estimate_path_storage_requirements_in_bytes, max_entries_possible,
};
use gix_index::hash::io::Plain;
use gix_index::hash::{ObjectId, digest};
use gix_index::util::{
    from_be_u16, from_be_u32, read_u32, read_u64, split_at_byte_exclusive, var_int, write_var_int,
};
use std::fmt::Display;
use test_row_kit::show::{Bytes, kind_of, yes};
use test_row_kit::{Fault, Lines, Words};

/// The calls about bytes.
#[derive(Clone, Copy)]
pub enum Call {
    /// `offset`: the varint at the start of the bytes.
    Offset,
    /// `offset-of`: the bytes of a varint.
    OffsetOf,
    /// `u32`: the number in the first four bytes.
    Four,
    /// `u64`: the number in the first eight bytes.
    Eight,
    /// `whole`: the number that exactly two or four bytes encode.
    Whole,
    /// `split`: the bytes before the first occurrence of a byte, and those after it.
    Split,
    /// `digest`: the digest of bytes.
    Digest,
    /// `id`: the id that the bytes are.
    Id,
    /// `verify`: an id compared with the expected one.
    Verify,
    /// `entries`: the largest number of entries in a file of a given length.
    Entries,
    /// `paths`: an estimate of the bytes that the paths of the entries take.
    Paths,
}

impl Call {
    /// Returns the call of this name.
    pub fn named(word: &str) -> Option<Call> {
        match word {
            "offset" => Some(Call::Offset),
            "offset-of" => Some(Call::OffsetOf),
            "u32" => Some(Call::Four),
            "u64" => Some(Call::Eight),
            "whole" => Some(Call::Whole),
            "split" => Some(Call::Split),
            "digest" => Some(Call::Digest),
            "id" => Some(Call::Id),
            "verify" => Some(Call::Verify),
            "entries" => Some(Call::Entries),
            "paths" => Some(Call::Paths),
            _ => None,
        }
    }

    /// Appends the lines of the call's answer. `words` are the arguments after the call.
    pub fn answer(self, words: &mut Words<'_>, out: &mut Lines) -> Result<(), Fault> {
        match self {
            Call::Digest => {
                let kind = words.kind()?;
                out.put("digest", digest(kind, &words.bytes()?));
            }
            Call::Entries => entries(out, words)?,
            Call::Paths => paths(out, words)?,
            Call::OffsetOf => {
                let mut image = Plain::new(Vec::new(out.alloc()));
                write_var_int(&mut image, words.number()?)?;
                out.put("write_var_int", Bytes(&image.inner));
            }
            _ => {
                let bytes = words.bytes()?;
                self.answer_bytes(&bytes, words, out)?;
            }
        }
        Ok(())
    }

    /// Appends the lines of a call whose first argument is bytes.
    fn answer_bytes(
        self,
        bytes: &[u8],
        words: &mut Words<'_>,
        out: &mut Lines,
    ) -> Result<(), Fault> {
        match self {
            Call::Offset => number(out, var_int(bytes)),
            Call::Four => number(out, read_u32(bytes)),
            Call::Eight => number(out, read_u64(bytes)),
            Call::Whole => whole(out, bytes)?,
            Call::Split => split(out, bytes, words.byte()?),
            Call::Verify => verify(out, bytes, &words.bytes()?)?,
            _ => id(out, bytes),
        }
        Ok(())
    }
}

fn number<N: Display + Copy>(out: &mut Lines, read: Option<(N, &[u8])>) {
    match read {
        Some((number, rest)) => {
            out.put("number", number);
            out.put("rest", rest.len());
        }
        None => out.put("number", "none"),
    }
}

fn whole(out: &mut Lines, bytes: &[u8]) -> Result<(), Fault> {
    match bytes.len() {
        2 => out.put("number", from_be_u16(bytes)),
        4 => out.put("number", from_be_u32(bytes)),
        _ => return Err(Fault::Wrong("two or four bytes")),
    }
    Ok(())
}

fn split(out: &mut Lines, bytes: &[u8], byte: u8) {
    match split_at_byte_exclusive(bytes, byte) {
        Some((before, behind)) => {
            out.put("before", Bytes(before));
            out.put("behind", Bytes(behind));
        }
        None => out.put("before", "none"),
    }
}

fn id(out: &mut Lines, bytes: &[u8]) {
    let Some(id) = ObjectId::from_bytes(bytes) else {
        return out.put("id", "none");
    };
    out.put("id", id);
    out.put("kind", kind_of(id.kind()));
    out.put("is_null", yes(id.is_null()));
}

fn verify(out: &mut Lines, actual: &[u8], expected: &[u8]) -> Result<(), Fault> {
    let (Some(actual), Some(expected)) = (
        ObjectId::from_bytes(actual),
        ObjectId::from_bytes(expected),
    ) else {
        return Err(Fault::Wrong("an id"));
    };
    match actual.verify(&expected) {
        Ok(()) => out.put("verify", "equal"),
        Err(e) => writeln!(out, "fault: digest {}, not {}", e.actual, e.expected),
    }
    Ok(())
}

fn entries(out: &mut Lines, words: &mut Words<'_>) -> Result<(), Fault> {
    let (kind, version, len) = (words.kind()?, words.version()?, words.number()?);
    let offset = words.number_named("offset")?;
    let most = max_entries_possible(len, offset, kind, version);
    out.put("max_entries_possible", most);
    Ok(())
}

fn paths(out: &mut Lines, words: &mut Words<'_>) -> Result<(), Fault> {
    let (kind, version) = (words.kind()?, words.version()?);
    let (count, len) = (words.number()?, words.number()?);
    let offset = words.number_named("offset")?;
    let most = estimate_path_storage_requirements_in_bytes(count, len, offset, kind, version);
    out.put("estimate_path_storage_requirements_in_bytes", most);
    Ok(())
}
