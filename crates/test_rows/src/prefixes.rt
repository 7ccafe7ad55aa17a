//! What is read from each prefix of bytes: for each line's name, the lengths for which its value is equal.

use crate::ranges::ranges;
use crate::reading::{Reading, read};
use crate::show::state::heading;
use gix_index::hash::Kind;
use std::alloc::{AllocError, Global};
use test_row_kit::Lines;

/// The names of the lines that are printed.
const NAMES: [&str; 8] = [
    "fault",
    "checksum",
    "version",
    "object_hash",
    "is_sparse",
    "had_end_of_index_marker",
    "had_offset_table",
    "entries",
];

/// Appends the lines for the prefixes of `bytes`, from no bytes to all of them.
pub fn prefixes(
    out: &mut Lines,
    kind: Kind,
    bytes: &[u8],
    reading: Reading,
) -> Result<(), AllocError> {
    let texts = texts_of(out.alloc(), kind, bytes, reading)?;
    for name in &NAMES {
        ranges(out, &texts, name);
    }
    Ok(())
}

/// Returns the lines for each prefix of `bytes`, from no bytes to all of them.
fn texts_of(
    alloc: Global,
    kind: Kind,
    bytes: &[u8],
    reading: Reading,
) -> Result<Vec<String>, AllocError> {
    let mut texts = Vec::new(alloc);
    for len in 0..=bytes.len() {
        texts.push(text_of(alloc, kind, &bytes[..len], reading)?)?;
    }
    Ok(texts)
}

/// Returns the lines for one prefix.
fn text_of(
    alloc: Global,
    kind: Kind,
    bytes: &[u8],
    reading: Reading,
) -> Result<String, AllocError> {
    let mut lines = Lines::new(alloc);
    if let Some((state, checksum)) = read(&mut lines, kind, bytes, reading)? {
        heading(&mut lines, &state, checksum);
    }
    lines.end()
}
