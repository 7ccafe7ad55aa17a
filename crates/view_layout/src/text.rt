//! Numbers and descriptions in a picture.

ghost use Rattle.std.specs.Prelude.{◌≡◌, ◌++◌, OnOk, decimal};
ghost use Rattle.view_layout.specs.Picture.{group_text, plain_words, words};
ghost use Rattle.view_layout.specs.Xml.{xml_byte, xml_text};

use crate::What;
use crate::map::append_what;
use base_text::escape::append_escaped;
use base_text::lines::Lines;
use entry_list::slice::EntrySlice;
use itoa::Buffer;
use std::alloc::{AllocError, Global};

/// The style of paths: as in the lines of a map without options.
const PLAIN_LINES: Lines = Lines {
    nul: false,
    quote: false,
};

/// Appends text.
pub fn append_piece(lines: &mut Vec<u8>, piece: &[u8]) -> Result<(), AllocError>
    ensures { OnOk result (lines.new.items ≡ lines.old.items ++ piece.now) }
{
    lines.extend_from_slice(piece)
}

/// Appends text, and then a number in decimal digits.
pub fn append_number(lines: &mut Vec<u8>, before: &[u8], n: u128) -> Result<(), AllocError>
    ensures { OnOk result (lines.new.items ≡ lines.old.items ++ (before.now ++ decimal n)) }
{
    let mut buffer = Buffer::new();
    lines.extend_from_slice(before)?;
    lines.extend_from_slice(buffer.format(n).as_bytes())
}

/// Appends a byte as character data of XML.
fn append_xml_byte(lines: &mut Vec<u8>, byte: u8) -> Result<(), AllocError>
    ensures { OnOk result (lines.new.items ≡ lines.old.items ++ xml_byte byte) }
{
    if byte == b'&' {
        return lines.extend_from_slice(b"&amp;");
    }
    if byte == b'<' {
        return lines.extend_from_slice(b"&lt;");
    }
    if byte == b'>' {
        return lines.extend_from_slice(b"&gt;");
    }
    if byte == b'"' {
        return lines.extend_from_slice(b"&quot;");
    }
    if byte == b'\'' {
        return lines.extend_from_slice(b"&#39;");
    }
    lines.extend_from_slice(&[byte])
}

/// Appends bytes as character data of XML.
fn append_xml(lines: &mut Vec<u8>, bytes: &[u8]) -> Result<(), AllocError>
    ensures { OnOk result (lines.new.items ≡ lines.old.items ++ xml_text bytes.now) }
{
    for byte in bytes {
        append_xml_byte(lines, *byte)?;
    }
    Ok(())
}

/// Appends the description of a group.
fn append_group(lines: &mut Vec<u8>, entries: &EntrySlice<'_>, what: What) -> Result<(), AllocError>
    ensures { OnOk result (lines.new.items ≡ lines.old.items ++ group_text entries.now what) }
{
    match what {
        What::Entry { .. } => lines.extend_from_slice(b"entries"),
        What::ExtensionHead { signature } => {
            lines.extend_from_slice(b"extension ")?;
            append_escaped(lines, &signature)
        }
        _ => append_what(lines, PLAIN_LINES, entries, what),
    }
}

/// Appends the description of a box, which is for a part or for a group.
fn append_plain(
    lines: &mut Vec<u8>,
    entries: &EntrySlice<'_>,
    each: bool,
    what: What,
) -> Result<(), AllocError>
    ensures { OnOk result
        (lines.new.items ≡ lines.old.items ++ plain_words each entries.now what) }
{
    if each {
        return append_what(lines, PLAIN_LINES, entries, what);
    }
    append_group(lines, entries, what)
}

/// Appends the description of a box as character data of XML.
pub fn append_words(
    lines: &mut Vec<u8>,
    alloc: Global,
    entries: &EntrySlice<'_>,
    each: bool,
    what: What,
) -> Result<(), AllocError>
    ensures { OnOk result (lines.new.items ≡ lines.old.items ++ words each entries.now what) }
{
    let mut plain = Vec::new(alloc);
    append_plain(&mut plain, entries, each, what)?;
    append_xml(lines, plain.as_slice())
}
