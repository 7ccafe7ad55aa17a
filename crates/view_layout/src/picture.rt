//! The picture as SVG.

ghost use Rattle.std.specs.Prelude.{◌≡◌, ◌++◌, ◌≤◌, OnOk, length};
ghost use Rattle.std.specs.List.{flat_map};
ghost use Rattle.base_text.specs.Blocks.{PutsText};
ghost use Rattle.view_layout.specs.Picture.{bar_end, box, box_shape, box_title, drawing, front_text, title_text, height, list_begin, middle_text, picture_text, row, row_begin, row_rest, svg_begin, svg_end, totals};
ghost use Rattle.view_layout.specs.Scale.{drawn_len};

use crate::Part;
use crate::grouping::group_parts;
use crate::legend::append_legend;
use crate::scale::{box_begin, box_width, drawn_len};
use crate::shade::{ink, shade_of};
use crate::text::{append_number, append_piece, append_words};
use base_text::block::{put_block, put_text};
use entry_list::list::EntryList;
use entry_list::slice::EntrySlice;
use index_parts::hash::io::Out;
use std::alloc::{AllocError, Global};
use std::io;

/// The maximum number of parts that are drawn part by part.
const MOST_PARTS: usize = 64;

/// Returns the height in pixels of a picture with `rows` rows.
fn height(rows: usize) -> u128
    ensures { result ≡ height rows }
{
    270 + 22 * (rows as u128)
}

/// Appends the shape of a box.
#[tactic(auto, unfolding(crate::specs::Picture::box_shape))]
fn append_shape(lines: &mut Vec<u8>, len: u128, part: Part) -> Result<(), AllocError>
    ensures { OnOk result (lines.new.items ≡ lines.old.items ++ box_shape len part) }
{
    append_number(lines, b"<rect x=\"", box_begin(len, part))?;
    append_number(lines, b"\" width=\"", box_width(len, part))?;
    append_piece(lines, b"\" height=\"600\" fill=\"")?;
    append_piece(lines, ink(shade_of(part.what)))?;
    append_piece(lines, b"\">")
}

/// Appends the text that a browser shows for a box.
#[tactic(auto, unfolding(crate::specs::Picture::box_title))]
fn append_title(
    lines: &mut Vec<u8>,
    alloc: Global,
    entries: &EntrySlice<'_>,
    each: bool,
    part: Part,
) -> Result<(), AllocError>
    ensures { OnOk result
        (lines.new.items ≡ lines.old.items ++ box_title each entries.now part) }
{
    append_piece(lines, b"<title>")?;
    append_words(lines, alloc, entries, each, part.what)?;
    append_number(lines, b": ", part.len as u128)?;
    append_number(lines, b" bytes from ", part.offset as u128)?;
    append_piece(lines, b" on</title></rect>\n")
}

/// Appends a box of the bar.
fn append_box(
    lines: &mut Vec<u8>,
    alloc: Global,
    entries: &EntrySlice<'_>,
    each: bool,
    len: u128,
    part: Part,
) -> Result<(), AllocError>
    ensures { OnOk result
        (lines.new.items ≡ lines.old.items ++ box each entries.now len part) }
{
    append_shape(lines, len, part)?;
    append_title(lines, alloc, entries, each, part)
}

/// Appends the begin of a row.
#[tactic(auto, unfolding(crate::specs::Picture::row_begin))]
fn append_row_begin(lines: &mut Vec<u8>, part: Part) -> Result<(), AllocError>
    ensures { OnOk result (lines.new.items ≡ lines.old.items ++ row_begin part) }
{
    append_piece(
        lines,
        b"<tspan x=\"400\" dy=\"220\" stroke=\"#202124\" stroke-width=\"4\" fill=\"",
    )?;
    append_piece(lines, ink(shade_of(part.what)))?;
    append_number(
        lines,
        b"\">&#9632;</tspan><tspan x=\"1500\" text-anchor=\"end\">",
        part.offset as u128,
    )
}

/// Appends the rest of a row.
#[tactic(auto, unfolding(crate::specs::Picture::row_rest))]
fn append_row_rest(
    lines: &mut Vec<u8>,
    alloc: Global,
    entries: &EntrySlice<'_>,
    each: bool,
    part: Part,
) -> Result<(), AllocError>
    ensures { OnOk result
        (lines.new.items ≡ lines.old.items ++ row_rest each entries.now part) }
{
    append_number(
        lines,
        b"</tspan><tspan x=\"2700\" text-anchor=\"end\">",
        part.len as u128,
    )?;
    append_piece(lines, b"</tspan><tspan x=\"3000\">")?;
    append_words(lines, alloc, entries, each, part.what)?;
    append_piece(lines, b"</tspan>\n")
}

/// Appends a row of the list.
fn append_row(
    lines: &mut Vec<u8>,
    alloc: Global,
    entries: &EntrySlice<'_>,
    each: bool,
    part: Part,
) -> Result<(), AllocError>
    ensures { OnOk result (lines.new.items ≡ lines.old.items ++ row each entries.now part) }
{
    append_row_begin(lines, part)?;
    append_row_rest(lines, alloc, entries, each, part)
}

/// Appends the first element of the picture.
#[tactic(auto, unfolding(crate::specs::Picture::svg_begin))]
fn append_svg_begin(lines: &mut Vec<u8>, pixels: u128) -> Result<(), AllocError>
    requires { pixels ≤ 0xffffffffffffffffffffffffffffff }
    ensures { OnOk result (lines.new.items ≡ lines.old.items ++ svg_begin pixels) }
{
    append_number(
        lines,
        b"<svg xmlns=\"http://www.w3.org/2000/svg\" viewBox=\"0 0 9600 ",
        10 * pixels,
    )?;
    append_number(lines, b"\" width=\"960\" height=\"", pixels)?;
    append_piece(
        lines,
        b"\" font-family=\"DejaVu Sans, Verdana, Arial, sans-serif\" font-size=\"130\" fill=\"#202124\">\n",
    )
}

/// Appends the title of the picture.
#[tactic(auto, unfolding(crate::specs::Picture::title_text))]
fn append_title_text(lines: &mut Vec<u8>) -> Result<(), AllocError>
    ensures { OnOk result (lines.new.items ≡ lines.old.items ++ title_text) }
{
    append_piece(
        lines,
        b"<title>The parts of an index file</title>\n<rect width=\"100%\" height=\"100%\" fill=\"#ffffff\"/>\n",
    )?;
    append_piece(
        lines,
        b"<text x=\"400\" y=\"440\" font-size=\"200\" font-weight=\"bold\">The parts of an index file</text>\n",
    )
}

/// Appends the numbers of bytes, parts and entries, and the begin of the bar.
#[tactic(auto, unfolding(crate::specs::Picture::totals))]
fn append_totals(
    lines: &mut Vec<u8>,
    bytes: u128,
    parts: usize,
    entries: usize,
) -> Result<(), AllocError>
    ensures { OnOk result (lines.new.items ≡ lines.old.items ++ totals bytes parts entries) }
{
    append_number(
        lines,
        b"<text x=\"9200\" y=\"440\" text-anchor=\"end\" fill=\"#5f6368\">bytes: ",
        bytes,
    )?;
    append_number(lines, b", parts: ", parts as u128)?;
    append_number(lines, b", entries: ", entries as u128)?;
    append_piece(
        lines,
        b"</text>\n<g transform=\"translate(400 640)\" stroke=\"#202124\" stroke-width=\"4\">\n",
    )
}

/// Appends the end of the bar, and the offsets of its ends.
#[tactic(auto, unfolding(crate::specs::Picture::bar_end))]
fn append_bar_end(lines: &mut Vec<u8>, bytes: u128) -> Result<(), AllocError>
    ensures { OnOk result (lines.new.items ≡ lines.old.items ++ bar_end bytes) }
{
    append_piece(
        lines,
        b"</g>\n<text x=\"400\" y=\"1400\" fill=\"#5f6368\">0</text>\n",
    )?;
    append_number(
        lines,
        b"<text x=\"9200\" y=\"1400\" text-anchor=\"end\" fill=\"#5f6368\">",
        bytes,
    )?;
    append_piece(lines, b"</text>\n")
}

/// Appends the names of the columns.
#[tactic(auto, unfolding(crate::specs::Picture::list_begin))]
fn append_list_begin(lines: &mut Vec<u8>) -> Result<(), AllocError>
    ensures { OnOk result (lines.new.items ≡ lines.old.items ++ list_begin) }
{
    append_piece(lines, b"<text y=\"2480\" xml:space=\"preserve\">")?;
    append_piece(
        lines,
        b"<tspan x=\"1500\" text-anchor=\"end\" fill=\"#5f6368\">offset</tspan>",
    )?;
    append_piece(
        lines,
        b"<tspan x=\"2700\" text-anchor=\"end\" fill=\"#5f6368\">length</tspan>",
    )?;
    append_piece(lines, b"<tspan x=\"3000\" fill=\"#5f6368\">what</tspan>\n")
}

/// Returns the end of the picture.
#[tactic(auto, unfolding(crate::specs::Picture::svg_end))]
fn svg_end<'a>() -> &'a [u8]
    ensures { result.now ≡ svg_end }
{
    b"</text>\n</svg>\n"
}

/// Appends the text before the boxes.
fn append_front(
    lines: &mut Vec<u8>,
    entries: &EntrySlice<'_>,
    parts: &[Part],
    boxes: &[Part],
) -> Result<(), AllocError>
    ensures { OnOk result
        (lines.new.items ≡ lines.old.items ++ front_text entries.now parts.now boxes.now) }
{
    append_svg_begin(lines, height(boxes.len()))?;
    append_title_text(lines)?;
    append_totals(lines, drawn_len(parts), parts.len(), entries.len())
}

/// Appends the text between the boxes and the rows.
fn append_middle(lines: &mut Vec<u8>, each: bool, parts: &[Part]) -> Result<(), AllocError>
    ensures { OnOk result (lines.new.items ≡ lines.old.items ++ middle_text each parts.now) }
{
    append_bar_end(lines, drawn_len(parts))?;
    append_legend(lines, each)?;
    append_list_begin(lines)
}

/// Writes the boxes of the bar.
fn write_boxes<W: Out>(
    alloc: Global,
    entries: &EntrySlice<'_>,
    each: bool,
    len: u128,
    boxes: &[Part],
    out: &mut W,
) -> io::Result<()>
    ensures { PutsText W.Out out.old out.new result
        (flat_map (box each entries.now len) boxes.now) }
{
    let mut lines = Vec::new(alloc);
    for part in boxes {
        append_box(&mut lines, alloc, entries, each, len, *part)?;
        put_block(&mut lines, out)?;
    }
    put_text(lines.as_slice(), out)
}

/// Writes the rows of the list.
fn write_rows<W: Out>(
    alloc: Global,
    entries: &EntrySlice<'_>,
    each: bool,
    boxes: &[Part],
    out: &mut W,
) -> io::Result<()>
    ensures { PutsText W.Out out.old out.new result (flat_map (row each entries.now) boxes.now) }
{
    let mut lines = Vec::new(alloc);
    for part in boxes {
        append_row(&mut lines, alloc, entries, each, *part)?;
        put_block(&mut lines, out)?;
    }
    put_text(lines.as_slice(), out)
}

/// Writes the text before the boxes.
fn write_front<W: Out>(
    alloc: Global,
    entries: &EntrySlice<'_>,
    parts: &[Part],
    boxes: &[Part],
    out: &mut W,
) -> io::Result<()>
    ensures { PutsText W.Out out.old out.new result (front_text entries.now parts.now boxes.now) }
{
    let mut lines = Vec::new(alloc);
    append_front(&mut lines, entries, parts, boxes)?;
    put_text(lines.as_slice(), out)
}

/// Writes the text between the boxes and the rows.
fn write_middle<W: Out>(alloc: Global, each: bool, parts: &[Part], out: &mut W) -> io::Result<()>
    ensures { PutsText W.Out out.old out.new result (middle_text each parts.now) }
{
    let mut lines = Vec::new(alloc);
    append_middle(&mut lines, each, parts)?;
    put_text(lines.as_slice(), out)
}

/// Writes a picture with these boxes. Each is for a part, or for a group.
fn write_drawing<W: Out>(
    alloc: Global,
    entries: &EntrySlice<'_>,
    each: bool,
    parts: &[Part],
    boxes: &[Part],
    out: &mut W,
) -> io::Result<()>
    ensures { PutsText W.Out out.old out.new result (drawing each entries.now parts.now boxes.now) }
{
    write_front(alloc, entries, parts, boxes, out)?;
    write_boxes(alloc, entries, each, drawn_len(parts), boxes, out)?;
    write_middle(alloc, each, parts, out)?;
    write_rows(alloc, entries, each, boxes, out)?;
    put_text(svg_end(), out)
}

/// Writes a picture of the parts of a file, as an SVG document:
///
/// - a bar, in which the width of each box is the length of its part, to scale;
/// - a legend of the colours;
/// - a list of offsets, lengths, and descriptions of the parts as in [`write_map`](view_layout::write_map).
///
/// More than 64 parts are drawn as groups: all entries with their padding as one, and an extension's head with its
/// content.
///
/// Text is collected in one buffer, which is written when it has more than 64 KiB.
///
/// # Errors
///
/// [`ErrorKind::OutOfMemory`]: an allocation failed. Any other error is that of the output, which has failed then. What
/// was written is a prefix of the picture.
pub fn write_svg<W: Out>(
    alloc: Global,
    entries: &EntryList,
    parts: &[Part],
    out: &mut W,
) -> io::Result<()>
    ensures { PutsText W.Out out.old out.new result (picture_text entries.now.records parts.now) }
{
    let entries = entries.as_slice();
    if parts.len() <= MOST_PARTS {
        return write_drawing(alloc, &entries, true, parts, parts, out);
    }
    let groups = group_parts(alloc, parts)?;
    write_drawing(alloc, &entries, false, parts, groups.as_slice(), out)
}
