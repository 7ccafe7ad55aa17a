//! Lines with ranges.

ghost use Rattle.view_events.specs.Event.{Adds};
ghost use Rattle.view_show.specs.Fields.{range_text, ranges_line};

use base_text::append::{Appended, append_decimal};
use ext_bitmap::ranges::Range;

/// Appends a range.
#[tactic(auto, unfolding(crate::specs::Fields::range_text))]
fn append_range(lines: &mut Vec<u8>, range: Range) -> Appended
    ensures { Adds result lines.old lines.new (range_text range) }
{
    lines.extend_from_slice(b" ")?;
    append_decimal(lines, range.first)?;
    if range.end.saturating_sub(range.first) == 1 {
        return Ok(());
    }
    lines.extend_from_slice(b"-")?;
    append_decimal(lines, range.end.saturating_sub(1))
}

/// Appends a line with a name and ranges.
#[tactic(auto, unfolding(crate::specs::Fields::ranges_line))]
pub fn append_ranges(lines: &mut Vec<u8>, indent: &[u8], name: &[u8], ranges: &[Range]) -> Appended
    ensures { Adds result lines.old lines.new (ranges_line indent.now name.now ranges.now) }
{
    lines.extend_from_slice(indent)?;
    lines.extend_from_slice(name)?;
    lines.extend_from_slice(b":")?;
    if ranges.is_empty() {
        return lines.extend_from_slice(b" none\n");
    }
    for range in ranges {
        append_range(lines, *range)?;
    }
    lines.extend_from_slice(b"\n")
}
