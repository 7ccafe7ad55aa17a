//! Formats the results of lookups: indices, ranges and counts.

use gix_index::{Entry, State};
use std::fmt::{self, Display};
use std::ops::Range;
use test_row_kit::Lines;
use test_row_kit::show::Text;

/// Returns the index of the first entry that equals `entry`.
pub fn place_of(state: &State, entry: Option<&Entry>) -> Option<usize> {
    let entry = entry?;
    state.entries().iter().position(|it| it == entry)
}

/// Appends the line of one lookup for a path.
pub fn put<D: Display + Drop>(out: &mut Lines, path: &[u8], name: &str, value: D) {
    writeln!(out, "{}: {name}: {value}", Text(path));
}

/// Displays a range of indices.
#[derive(Drop)]
pub struct Places(pub Range<usize>);

impl Display for Places {
    fn fmt<W: fmt::Write>(&self, f: &mut fmt::Formatter<W>) -> fmt::Result {
        write!(f, "{}..{}", self.0.start, self.0.end)
    }
}

/// Displays two values: the case-sensitive and the case-insensitive one.
#[derive(Clone, Copy)]
pub struct Both<K, I>(pub K, pub I);

impl<K: Display, I: Display> Display for Both<K, I> {
    fn fmt<W: fmt::Write>(&self, f: &mut fmt::Formatter<W>) -> fmt::Result {
        write!(f, "{}, {}", self.0, self.1)
    }
}

/// Returns the largest number of paths that a search in `len` entries may compare: one more than the number of binary
/// digits of `len`.
pub fn most_compared(len: usize) -> usize {
    let digits = usize::BITS.saturating_sub(len.leading_zeros());
    digits.saturating_add(1) as usize
}

/// Appends the line of the number of paths that a search compared: only `most` if it isn't exceeded, otherwise both.
pub fn compared(out: &mut Lines, path: &[u8], name: &str, count: usize, most: usize) {
    if count <= most {
        writeln!(out, "{}: {name} comparisons: at most {most}", Text(path));
    } else {
        writeln!(
            out,
            "{}: {name} comparisons: {count}, not at most {most}",
            Text(path)
        );
    }
}
