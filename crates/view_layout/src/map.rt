//! The map of a file: a line for each part.

ghost use Rattle.std.specs.Prelude.{◌≡◌, ◌++◌, OnOk, codes};
ghost use Rattle.base_text.specs.Blocks.{PutsText};
ghost use Rattle.base_text.specs.Escaped.{escaped};
ghost use Rattle.view_layout.specs.Lines.{map_line, map_lines, map_path, record_path, what_text};

use crate::part::{Part, What};
use base_text::append::append_decimal;
use base_text::block::{BLOCK_LEN, SPARE_LEN, put_block, put_text};
use base_text::escape::append_escaped;
use base_text::lines::Lines;
use base_text::quote::append_quoted;
use entry_list::list::EntryList;
use entry_list::slice::EntrySlice;
use index_parts::hash::io::Out;
use std::alloc::{AllocError, Global};
use std::io;

/// Returns the path of the entry at index `place`, or nothing if there is no such entry.
fn record_path<'a>(entries: &EntrySlice<'a>, place: usize) -> &'a [u8]
    ensures { result.now ≡ record_path entries.now place }
{
    if place < entries.len() {
        return entries.path(place);
    }
    &[]
}

/// Appends the description of an extension's part.
fn append_extension(lines: &mut Vec<u8>, signature: &[u8], part: &[u8]) -> Result<(), AllocError>
    ensures { OnOk result (lines.new.items
        ≡ lines.old.items ++ (codes "extension " ++ escaped signature.now ++ part.now)) }
{
    lines.extend_from_slice(b"extension ")?;
    append_escaped(lines, signature)?;
    lines.extend_from_slice(part)
}

/// Appends the path of an entry.
fn append_path(lines: &mut Vec<u8>, style: Lines, path: &[u8]) -> Result<(), AllocError>
    ensures { OnOk result (lines.new.items ≡ lines.old.items ++ map_path style path.now) }
{
    if style.quote {
        return append_quoted(lines, path);
    }
    if style.nul {
        return lines.extend_from_slice(path);
    }
    append_escaped(lines, path)
}

/// Appends the description of an entry's part.
fn append_entry(
    lines: &mut Vec<u8>,
    style: Lines,
    entries: &EntrySlice<'_>,
    number: u32,
) -> Result<(), AllocError>
    ensures { OnOk result
        (lines.new.items ≡ lines.old.items ++ what_text style entries.now (What.Entry number)) }
{
    lines.extend_from_slice(b"entry ")?;
    append_decimal(lines, u64::from(number))?;
    lines.extend_from_slice(b" ")?;
    append_path(lines, style, record_path(entries, number as usize))
}

/// Appends the description of a part. An entry has its number and its path.
pub(crate) fn append_what(
    lines: &mut Vec<u8>,
    style: Lines,
    entries: &EntrySlice<'_>,
    what: What,
) -> Result<(), AllocError>
    ensures { OnOk result (lines.new.items ≡ lines.old.items ++ what_text style entries.now what) }
{
    match what {
        What::Header => lines.extend_from_slice(b"header"),
        What::Entry { number } => append_entry(lines, style, entries, number),
        What::Padding => lines.extend_from_slice(b"padding"),
        What::ExtensionHead { signature } => append_extension(lines, &signature, b" head"),
        What::ExtensionContent { signature } => append_extension(lines, &signature, b" content"),
        What::LeftOver => lines.extend_from_slice(b"left over"),
        What::Trailer => lines.extend_from_slice(b"trailer"),
        What::Unread => lines.extend_from_slice(b"unread"),
    }
}

/// Appends the line of a part.
fn append_line(
    lines: &mut Vec<u8>,
    style: Lines,
    entries: &EntrySlice<'_>,
    part: Part,
) -> Result<(), AllocError>
    ensures { OnOk result (lines.new.items ≡ lines.old.items ++ map_line style entries.now part) }
{
    append_decimal(lines, part.offset as u64)?;
    lines.extend_from_slice(b"\t")?;
    append_decimal(lines, part.len as u64)?;
    lines.extend_from_slice(b"\t")?;
    append_what(lines, style, entries, part.what)?;
    lines.extend_from_slice(&[style.end()])
}

/// Writes a line for each part: the offset and the length in decimal digits, and what the part is, separated by tabs.
/// An entry has its number and its path.
///
/// If lines neither quote paths nor end with a NUL, a path is escaped to fit in a line. A byte that isn't plain ASCII
/// is `\x` and two hexadecimal digits, and a backslash is doubled.
///
/// Lines are collected in one buffer, which is written when it has more than 64 KiB.
///
/// # Errors
///
/// [`io::ErrorKind::OutOfMemory`]: the buffer can't be allocated. Any other error is that of the output, which has
/// failed then. What was written is a prefix of the lines.
pub fn write_map<W: Out>(
    alloc: Global,
    entries: &EntryList,
    parts: &[Part],
    style: Lines,
    out: &mut W,
) -> io::Result<()>
    ensures { PutsText W.Out out.old out.new result
        (map_lines style entries.now.records parts.now) }
{
    let entries = entries.as_slice();
    let mut lines = Vec::with_capacity(alloc, BLOCK_LEN + SPARE_LEN)?;
    for part in parts {
        append_line(&mut lines, style, &entries, *part)?;
        put_block(&mut lines, out)?;
    }
    put_text(lines.as_slice(), out)
}
