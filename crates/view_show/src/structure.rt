//! Lines of values by their position, and of begins.

ghost use Rattle.std.specs.Prelude.{◌++◌};
ghost use Rattle.view_events.specs.Event.{Adds};
ghost use Rattle.view_show.specs.Fields.{datum_text, ranges_line, text_line};
ghost use Rattle.view_show.specs.Words.{count_line, depth_line, indent_at, line_at, object_line, line_words};

use crate::fields::{append_datum, append_heading, append_text};
use crate::ranges::append_ranges;
use crate::words::{DEEPEST_DIRECTORY, has_heading, indent_at, indent_of, is_read, line_words};
use base_text::append::Appended;
use ext_bitmap::ranges::Range;
use view_events::event::Datum::{self, Number};
use view_events::event::{Item, Key, Where};

/// Appends the line of a value, if it has one.
#[tactic(auto, unfolding(crate::specs::Words::line_at))]
pub fn append_value_at(lines: &mut Vec<u8>, at: Where, datum: Datum) -> Appended
    ensures { Adds result lines.old lines.new (line_at at (datum_text datum)) }
{
    if !is_read(at) {
        return Ok(());
    }
    append_datum(lines, indent_at(at), line_words(at), datum)
}

/// Appends the line of a directory's depth, if its indent doesn't show it.
#[tactic(auto, unfolding(crate::specs::Words::depth_line))]
fn append_depth(lines: &mut Vec<u8>, at: Where) -> Appended
    ensures { Adds result lines.old lines.new (depth_line at) }
{
    let Where::Member(Key::DirectoryName, depth, _) = at else {
        return Ok(());
    };
    let depth = depth / 2;
    if depth <= DEEPEST_DIRECTORY {
        return Ok(());
    }
    append_datum(
        lines,
        indent_of(DEEPEST_DIRECTORY + 2),
        b"depth",
        Number(u64::from(depth)),
    )
}

/// Appends the line of a text. After the name of a directory, appends the line of its depth if the indent doesn't show
/// it.
pub fn append_text_at(lines: &mut Vec<u8>, at: Where, bytes: &[u8]) -> Appended
    ensures { Adds result lines.old lines.new
        (text_line (indent_at at) (line_words at) bytes.now ++ depth_line at) }
{
    append_text(lines, indent_at(at), line_words(at), bytes)?;
    append_depth(lines, at)
}

/// Appends the line of ranges.
pub fn append_ranges_at(lines: &mut Vec<u8>, at: Where, ranges: &[Range]) -> Appended
    ensures { Adds result lines.old lines.new
        (ranges_line (indent_at at) (line_words at) ranges.now) }
{
    append_ranges(lines, indent_at(at), line_words(at), ranges)
}

/// Appends the line for the begin of an object.
#[tactic(auto, unfolding(crate::specs::Words::object_line))]
pub fn append_begin(lines: &mut Vec<u8>, at: Where) -> Appended
    ensures { Adds result lines.old lines.new (object_line at) }
{
    if let Where::Element(Item::Directory, _, position) = at {
        return append_datum(
            lines,
            indent_at(at),
            line_words(at),
            Number(position as u64),
        );
    }
    if !has_heading(at) {
        return Ok(());
    }
    append_heading(lines, indent_at(at), line_words(at))
}

/// Appends the line for the begin of an array, or of an object whose last member is an array.
#[tactic(auto, unfolding(crate::specs::Words::count_line))]
pub fn append_count(lines: &mut Vec<u8>, at: Where, count: usize) -> Appended
    ensures { Adds result lines.old lines.new (count_line at count) }
{
    if !has_heading(at) {
        return Ok(());
    }
    append_datum(lines, indent_at(at), line_words(at), Number(count as u64))
}
