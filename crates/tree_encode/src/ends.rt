//! Search for the end of a directory's entries.

ghost use Rattle.std.specs.Prelude.{◌≡◌, ◌<◌, ◌≤◌, drop, length, slice_range};
ghost use Rattle.std.specs.List.{AllWithin, HoldsAt};
ghost use Rattle.base_search.specs.Prefix.{prefix_cmp};
ghost use Rattle.tree_encode.specs.EndSteps.{ContinuesAt, NeverFall, tail_answers};

use crate::names::tail_of;
use base_search::ordered::{Ordered, end_from};
use base_search::prefix::compare_prefix;
use entry_list::slice::EntrySlice;
use std::cmp::Ordering;

/// Compares the first bytes of `path`, after a prefix of `prefix_len` bytes, with `shown`.
fn compare_tail(path: &[u8], prefix_len: usize, shown: &[u8]) -> Ordering
    ensures { result ≡ prefix_cmp shown.now (drop prefix_len path.now) }
{
    compare_prefix(tail_of(path, prefix_len), shown)
}

/// The entries from index `start` to `end`, compared by what their paths have after a prefix of `prefix_len` bytes.
#[derive(Clone, Copy)]
struct Tails<'a> {
    entries: &'a EntrySlice<'a>,
    start: usize,
    end: usize,
    prefix_len: usize,
    shown: &'a [u8],
}

impl Ordered for Tails<'_> {
    ghost answers = { λ s. tail_answers s.prefix_len s.shown.now
        (slice_range s.entries.now s.start s.end) };

    fn len(&self) -> usize {
        self.end.min(self.entries.len()).saturating_sub(self.start)
    }

    fn compare(&self, place: usize) -> Ordering {
        let path = self.entries.path(self.start + place);
        compare_tail(path, self.prefix_len, self.shown)
    }
}

/// Returns the end of the entries from index `start` whose paths have `shown` after a prefix of `prefix_len` bytes.
/// After the prefix, the paths from `start` to `end` never decrease.
pub(crate) fn end_of(
    entries: &EntrySlice<'_>,
    start: usize,
    end: usize,
    prefix_len: usize,
    shown: &[u8],
) -> usize
    requires some { start < end }
    requires within { end ≤ length entries.now }
    requires first { HoldsAt (ContinuesAt prefix_len shown.now) entries.now start }
    requires in_order { NeverFall prefix_len entries.now start end }
    ensures more { start < result }
    ensures within { result ≤ end }
    ensures run { AllWithin (ContinuesAt prefix_len shown.now) entries.now start result }
    ensures stops { AllWithin (λ r. ContinuesAt prefix_len shown.now r → ⊥) entries.now result end }
{
    let tails = Tails {
        entries,
        start,
        end,
        prefix_len,
        shown,
    };
    start + end_from(&tails, 1)
}
