//! The positions of the parts of a file in a bar.

ghost use Rattle.std.specs.Prelude.{◌≡◌, ◌≤◌, min};
ghost use Rattle.view_layout.specs.Scale.{bar_width, box_begin, box_width, drawn_len, part_end, scaled};

use crate::Part;

/// The width of the bar, in tenths of a pixel.
const BAR_WIDTH: u128 = 8800;

/// Returns the offset of the first byte after a part.
fn part_end(part: Part) -> u128
    ensures value { result ≡ part_end part }
    ensures short { result ≤ 0x1fffffffffffffffe }
{
    part.offset as u128 + part.len as u128
}

/// Returns the end of the last part, or 0 if there is none.
pub fn drawn_len(parts: &[Part]) -> u128
    ensures { result ≡ drawn_len parts.now }
{
    match parts.last() {
        Some(part) => part_end(*part),
        None => 0,
    }
}

/// Returns the offset, or the length if that is less.
fn within(len: u128, offset: u128) -> u128
    ensures { result ≡ min offset len }
{
    if offset < len { offset } else { len }
}

/// Returns the position of an offset in a bar for `len` bytes, in tenths of a pixel.
#[tactic(auto, unfolding(crate::specs::Scale::scaled))]
fn scaled(len: u128, offset: u128) -> u128
    requires { offset ≤ 0x1fffffffffffffffe }
    ensures value { result ≡ scaled len offset }
    ensures inside { result ≤ bar_width }
{
    if len == 0 {
        return 0;
    }
    within(len, offset) * BAR_WIDTH / len
}

/// Returns the position of the begin of a part's box, in tenths of a pixel.
pub fn box_begin(len: u128, part: Part) -> u128
    ensures { result ≡ box_begin len part }
{
    scaled(len, part.offset as u128)
}

/// Returns the width of a part's box, in tenths of a pixel.
pub fn box_width(len: u128, part: Part) -> u128
    ensures { result ≡ box_width len part }
{
    scaled(len, part_end(part)) - box_begin(len, part)
}
