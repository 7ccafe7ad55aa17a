//! Searches among the rows of a table by what their paths begin with.

ghost use Rattle.std.specs.Prelude.{◌≡◌, ◌++◌, IfSome};
ghost use Rattle.gix_index.specs.Range.{LiesWithin};
ghost use Rattle.index_c.specs.Finding.{IsPrefixed, PrefixCodes};
ghost use Rattle.entry_lookup.specs.SearchSteps.{prefix_answers};
ghost use Rattle.base_search.specs.Prefix.{prefix_cmp};
ghost use Rattle.capi_table.specs.Table.{records_of, row_path};

use crate::status::{DONE, NONE};
use base_search::ordered::{Ordered, part, part_within};
use base_search::prefix::compare_pieces;
use capi_table::row::{Row, path_of};
use std::cmp::Ordering;
use std::ops::Range;

/// A range of rows of a table, counted from 0: those from `start` up to and excluding `end`.
#[repr(C)]
#[derive(Clone, Copy)]
pub struct Places {
    /// The index of the first row.
    pub start: usize,
    /// The index after the last row.
    pub end: usize,
}

/// Compares the path of the row with a prefix in two pieces: equal if it begins with it.
fn compare(row: &Row, paths: &[u8], prefix: &[u8], tail: &[u8]) -> Ordering
    ensures { result ≡ prefix_cmp (prefix.now ++ tail.now) (row_path paths.now row.now) }
{
    compare_pieces(path_of(row, paths), prefix, tail)
}

/// Rows by what their paths begin with, for a search of a prefix that is given in two pieces.
#[derive(Clone, Copy)]
pub(crate) struct ByPrefix<'a> {
    pub(crate) rows: &'a [Row],
    pub(crate) paths: &'a [u8],
    pub(crate) prefix: &'a [u8],
    pub(crate) tail: &'a [u8],
}

impl Ordered for ByPrefix<'_> {
    ghost answers = { λ s. prefix_answers (s.prefix.now ++ s.tail.now)
        (records_of s.paths.now s.rows.now) };

    fn len(&self) -> usize {
        self.rows.len()
    }

    fn compare(&self, place: usize) -> Ordering {
        compare(&self.rows[place], self.paths, self.prefix, self.tail)
    }
}

/// Returns the range of the rows whose paths begin with a prefix, if there are any.
fn prefix_range(rows: &[Row], paths: &[u8], prefix: &[u8]) -> Option<Range<usize>>
    ensures in_range { IfSome result (LiesWithin (records_of paths.now rows.now)) }
    ensures prefixed { IsPrefixed prefix.now paths.now rows.now result }
{
    if prefix.is_empty() {
        return Some(0..rows.len());
    }
    let places = ByPrefix {
        rows,
        paths,
        prefix,
        tail: &[],
    };
    let low = part(&places, false).0;
    let high = part_within(&places, true, low, places.len()).0;
    if low < high { Some(low..high) } else { None }
}

/// Finds the rows whose paths begin with the bytes of the prefix. The empty prefix has all rows, even if the table has
/// none.
///
/// In rows whose paths never decrease, these are all such rows. Rows that strictly increase by path, then by stage, are
/// such rows. In other rows, these are rows of the table. About as many rows are compared as twice the number of binary
/// digits of the number of rows.
///
/// - `DONE`: their range is written.
/// - `NONE`: there are none, and the range is as it was.
#[unsafe(no_mangle)]
pub extern "C" fn gix_index_find_prefix(
    rows: &[Row],
    paths: &[u8],
    prefix: &[u8],
    places: &mut Places,
) -> u32
    ensures { PrefixCodes prefix.now paths.now rows.now places.old places.new result }
{
    match prefix_range(rows, paths, prefix) {
        Some(range) => {
            *places = Places {
                start: range.start,
                end: range.end,
            };
            DONE
        }
        None => NONE,
    }
}
