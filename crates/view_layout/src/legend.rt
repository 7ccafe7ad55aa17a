//! The legend: the meaning of the colours.

ghost use Rattle.std.specs.Prelude.{◌≡◌, ◌++◌, OnOk};
ghost use Rattle.view_layout.specs.Legend.{first_group_marks, first_part_marks, last_group_marks, last_part_marks, legend, legend_mark, mark_box, mark_name};

use crate::shade::{Shade, ink};
use crate::text::append_piece;
use std::alloc::AllocError;

/// Appends a box of a colour, at a position.
#[tactic(auto, unfolding(crate::specs::Legend::mark_box))]
fn append_mark_box(lines: &mut Vec<u8>, place: &[u8], shade: Shade) -> Result<(), AllocError>
    ensures { OnOk result (lines.new.items ≡ lines.old.items ++ mark_box place.now shade) }
{
    append_piece(lines, b"<g transform=\"translate(")?;
    append_piece(lines, place)?;
    append_piece(lines, b")\"><rect width=\"300\" height=\"150\" fill=\"")?;
    append_piece(lines, ink(shade))
}

/// Appends the meaning of a colour.
#[tactic(auto, unfolding(crate::specs::Legend::mark_name))]
fn append_mark_name(lines: &mut Vec<u8>, name: &[u8]) -> Result<(), AllocError>
    ensures { OnOk result (lines.new.items ≡ lines.old.items ++ mark_name name.now) }
{
    append_piece(
        lines,
        b"\" stroke=\"#202124\" stroke-width=\"4\"/><text x=\"400\" y=\"125\">",
    )?;
    append_piece(lines, name)?;
    append_piece(lines, b"</text></g>\n")
}

/// Appends a colour and its meaning, at a position.
fn append_mark(
    lines: &mut Vec<u8>,
    place: &[u8],
    shade: Shade,
    name: &[u8],
) -> Result<(), AllocError>
    ensures { OnOk result
        (lines.new.items ≡ lines.old.items ++ legend_mark place.now shade name.now) }
{
    append_mark_box(lines, place, shade)?;
    append_mark_name(lines, name)
}

/// Appends the first row of the types of parts.
#[tactic(auto, unfolding(crate::specs::Legend::first_part_marks))]
fn append_first_parts(lines: &mut Vec<u8>) -> Result<(), AllocError>
    ensures { OnOk result (lines.new.items ≡ lines.old.items ++ first_part_marks) }
{
    append_mark(lines, b"400 1680", Shade::Header, b"header")?;
    append_mark(lines, b"2600 1680", Shade::Entry, b"entry")?;
    append_mark(lines, b"4800 1680", Shade::Padding, b"padding")?;
    append_mark(lines, b"7000 1680", Shade::ExtensionHead, b"extension head")
}

/// Appends the last row of the types of parts.
#[tactic(auto, unfolding(crate::specs::Legend::last_part_marks))]
fn append_last_parts(lines: &mut Vec<u8>) -> Result<(), AllocError>
    ensures { OnOk result (lines.new.items ≡ lines.old.items ++ last_part_marks) }
{
    append_mark(
        lines,
        b"400 1940",
        Shade::ExtensionContent,
        b"extension content",
    )?;
    append_mark(lines, b"2600 1940", Shade::LeftOver, b"left over")?;
    append_mark(lines, b"4800 1940", Shade::Trailer, b"trailer")?;
    append_mark(lines, b"7000 1940", Shade::Unread, b"unread")
}

/// Appends the first row of the types of groups.
#[tactic(auto, unfolding(crate::specs::Legend::first_group_marks))]
fn append_first_groups(lines: &mut Vec<u8>) -> Result<(), AllocError>
    ensures { OnOk result (lines.new.items ≡ lines.old.items ++ first_group_marks) }
{
    append_mark(lines, b"400 1680", Shade::Header, b"header")?;
    append_mark(lines, b"2600 1680", Shade::Entry, b"entries")?;
    append_mark(lines, b"4800 1680", Shade::ExtensionHead, b"extension")
}

/// Appends the last row of the types of groups.
#[tactic(auto, unfolding(crate::specs::Legend::last_group_marks))]
fn append_last_groups(lines: &mut Vec<u8>) -> Result<(), AllocError>
    ensures { OnOk result (lines.new.items ≡ lines.old.items ++ last_group_marks) }
{
    append_mark(lines, b"400 1940", Shade::LeftOver, b"left over")?;
    append_mark(lines, b"2600 1940", Shade::Trailer, b"trailer")?;
    append_mark(lines, b"4800 1940", Shade::Unread, b"unread")
}

/// Appends the legend: each type of parts, or each type of groups.
pub fn append_legend(lines: &mut Vec<u8>, each: bool) -> Result<(), AllocError>
    ensures { OnOk result (lines.new.items ≡ lines.old.items ++ legend each) }
{
    if each {
        append_first_parts(lines)?;
        return append_last_parts(lines);
    }
    append_first_groups(lines)?;
    append_last_groups(lines)
}
