//! Ordered tables of directories, each with the indices of the entries below it.

ghost use Rattle.std.specs.Prelude.{◌≡◌, ◌<◌, List, length, map, IfOk, IfErr, false};
ghost use Rattle.std.specs.List.{HoldsAt, list_any};
ghost use Rattle.entry_list.specs.Record.{Record};
ghost use Rattle.entry_lookup.specs.Closest.{is_below};
ghost use Rattle.entry_lookup.specs.NameSteps.{outer_cmp};
ghost use Rattle.entry_lookup.specs.Searches.{IsHalving};
ghost use Rattle.entry_lookup.specs.SpanSteps.{AreDirs, span_names};
ghost use Rattle.entry_lookup.specs.Tables.{last_slash};
ghost use Rattle.entry_lookup.specs.WalkSteps.{span_value};

use crate::names::compare_names;
use crate::walk::Span;
use base_search::ordered::{Ordered, search_within};
use std::cmp::Ordering;

/// Returns the position of the last slash.
pub(crate) fn last_slash(path: &[u8]) -> Option<usize>
    ensures { result ≡ last_slash path.now }
{
    let mut end = path.len();
    while end > 0 {
        end -= 1;
        if path[end] == b'/' {
            return Some(end);
        }
    }
    None
}

/// Directories, whose names are compared with a target.
#[derive(Clone, Copy)]
pub(crate) struct SpanSearch<'a> {
    pub(crate) spans: &'a [Span<'a>],
    pub(crate) name: &'a [u8],
}

impl Ordered for SpanSearch<'_> {
    ghost answers = { λ s. map (λ x. outer_cmp x.name s.name.now) (map span_value s.spans.now) };

    fn len(&self) -> usize {
        self.spans.len()
    }

    fn compare(&self, place: usize) -> Ordering {
        compare_names(self.spans[place].name, self.name, false, true)
    }
}

/// Returns the index of the directory, or as an error the index at which it would be inserted. The second result is the
/// number of names that were compared.
pub(crate) fn find(spans: &[Span<'_>], directory: &[u8]) -> (Result<usize, usize>, usize)
    ensures found { IfOk result.0 (λ i. (i < length spans.now)
        × HoldsAt (λ x. x.name ≡ directory.now) (map span_value spans.now) i) }
    ensures absent { (rs : List Record) → AreDirs rs (span_names spans.now)
        → IfErr result.0 (λ _. list_any (is_below directory.now) rs ≡ false) }
    ensures count { IsHalving (length (span_names spans.now)) result.1 }
{
    let places = SpanSearch {
        spans,
        name: directory,
    };
    search_within(&places, 0, spans.len())
}
