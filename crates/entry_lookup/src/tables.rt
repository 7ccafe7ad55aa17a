//! Searches of ordered entries by way of their directories.

ghost use Rattle.std.specs.Prelude.{◌≡◌, ◌↔◌, ◌<◌, ◌≤◌, ◌+◌, ◌-◌, ◌^◌, ℕ, List, length, IfOk, IsTrue};
ghost use Rattle.entry_fields.specs.Flags.{stage_code};
ghost use Rattle.entry_list.specs.Order.{IsOrderedByPath};
ghost use Rattle.entry_list.specs.Record.{Record, records_in};
ghost use Rattle.entry_lookup.specs.Closest.{is_below};
ghost use Rattle.entry_lookup.specs.Range.{IsRange};
ghost use Rattle.base_search.specs.Digits.{digits};
ghost use Rattle.entry_lookup.specs.SearchSteps.{AskedAnswer};
ghost use Rattle.entry_lookup.specs.Searches.{KeyAnswer, PathAnswer};
ghost use Rattle.entry_lookup.specs.SpanSteps.{AreSpans, IsWindow};
ghost use Rattle.entry_lookup.specs.Tables.{IsBounded, IsDirs, present_count};

use crate::search::Asked;
use crate::spans::{find, last_slash};
use crate::walk::{Span, directories_of};
use base_search::ordered::search_within;
use entry_fields::entry::Stage;
use entry_list::Entry;
use entry_list::slice::EntrySlice;
use std::alloc::{AllocError, Global};
use std::marker::Model;
use std::ops::Range;

/// Returns whether the paths of the entries never fall.
pub fn is_ordered_by_path(entries: &EntrySlice<'_>) -> bool
    ensures { IsTrue result ↔ IsOrderedByPath entries.now }
{
    for i in 0..entries.len() {
        if i > 0 && Entry::cmp_filepaths(entries.path(i - 1), entries.path(i)).is_gt() {
            return false;
        }
    }
    true
}

/// A list of entries in which paths are searched.
pub trait PathSearch {
    // The entries, each with its complete path.
    ghost list: { Self → List Record };

    // Whether a search of the path may make this number of comparisons.
    ghost compares: { Self → List ℕ → ℕ → Type 0 };

    /// Returns an index of an entry at the path. The error is the index at which the path would be inserted: the number
    /// of paths below it. The second result is the number of paths that were compared. Each implementation has its own
    /// bound.
    ///
    /// This is guaranteed if the paths never fall. Otherwise an index still has that path, and an error is only at most
    /// the number of entries.
    fn search_path(&self, path: &[u8]) -> (Result<usize, usize>, usize)
        ensures { PathAnswer (compares self.now path.now) path.now (list self.now) result };

    /// Returns the index of the entry at the path and the stage. The error is the index at which it would be inserted:
    /// the number of entries that are below it by path, then stage. The second result is the number of paths that were
    /// compared.
    ///
    /// This is guaranteed if entries strictly increase by path, then stage. Otherwise an index still has that path and
    /// stage, and an error is only at most the number of entries.
    fn search_path_and_stage(&self, path: &[u8], stage: Stage) -> (Result<usize, usize>, usize)
        ensures { KeyAnswer (compares self.now path.now) path.now (stage_code stage)
            (list self.now) result };
}

/// Returns how many of the paths have an entry. This is guaranteed if the paths of the entries never fall. Otherwise it
/// is at most the number of `paths`.
pub fn count_present<S: PathSearch>(searcher: &S, paths: &[&[u8]]) -> usize
    ensures in_range { result ≤ length paths.now }
    ensures count { IsOrderedByPath (S.list searcher.now)
        → result ≡ present_count paths.now (S.list searcher.now) }
{
    let mut count = 0;
    for path in paths {
        if searcher.search_path(path).0.is_ok() {
            count += 1;
        }
    }
    count
}

/// A table of the directories with entries below them, in order, for entries whose paths never fall. It borrows the
/// entries that it was made from.
#[derive(Drop)]
pub struct DirectoryTable<'a> {
    entries: EntrySlice<'a>,
    spans: Vec<Span<'a>>,
}

impl<'a> Model for DirectoryTable<'a> {
    ghost Value = { List Record };

    ghost view = { λ t. t.entries };

    ghost invariant = { λ t. AreSpans t.entries t.spans.items };
}

impl<'a> DirectoryTable<'a> {
    /// Returns the table of the directories with entries below them. It has 32 bytes for each. It allocates memory. If
    /// an allocation fails, nothing of the table is left.
    pub fn new(
        alloc: Global,
        entries: &'a [Entry],
        backing: &'a [u8],
    ) -> Result<DirectoryTable<'a>, AllocError>
        requires { IsOrderedByPath (records_in backing.now entries.now) }
        ensures { IfOk result (λ table. table ≡ records_in backing.now entries.now) }
    {
        let entries = EntrySlice::new(entries, backing);
        let spans = directories_of(alloc, &entries, None, false, false)?;
        Ok(DirectoryTable { entries, spans })
    }

    /// Returns the number of directories: what comes before each slash of a path, each name once.
    pub fn directories(&self) -> usize
        ensures { (names : List (List ℕ)) × IsDirs self.now names × (result ≡ length names) }
    {
        self.spans.len()
    }

    /// Returns the indices of the entries below the directory, counted from 0, or None if there are none.
    pub fn range(&self, directory: &[u8]) -> Option<Range<usize>>
        ensures { IsRange (is_below directory.now) self.now result }
    {
        let spans: &[Span<'_>] = &self.spans;
        match find(spans, directory).0 {
            Ok(place) => {
                let span = spans[place];
                Some(span.start..span.end)
            }
            Err(_) => None,
        }
    }

    /// Returns the indices in which the path is searched. Entries before them are below the path, entries after them
    /// above it. The second result is the number of names that were compared.
    fn window(&self, path: &[u8]) -> (Range<usize>, usize)
        ensures window { IsWindow path.now self.now result.0 }
        ensures some { 0 < length self.now → result.0.start < result.0.end }
        ensures few { result.1 < 2 ^ 63 }
        ensures count { IsBounded self.now path.now
            (result.1 + digits (result.0.end - result.0.start) + 1) }
    {
        let whole = 0..self.entries.len();
        let Some(slash) = last_slash(path) else {
            return (whole, 0);
        };
        let spans: &[Span<'_>] = &self.spans;
        let (place, count) = find(spans, &path[..slash]);
        match place {
            Ok(place) => {
                let span = spans[place];
                (span.start..span.end, count)
            }
            Err(_) => (whole, count),
        }
    }

    /// Returns the index of an entry at the path, and at the stage if one is given, or the index at which it would be
    /// inserted. The second result is the number of names and paths that were compared.
    fn search(&self, path: &[u8], stage: Option<Stage>) -> (Result<usize, usize>, usize)
        ensures { AskedAnswer (IsBounded self.now path.now) path.now stage self.now result }
    {
        let (window, count) = self.window(path);
        let places = Asked {
            entries: &self.entries,
            path,
            stage,
        };
        let (result, more) = search_within(&places, window.start, window.end);
        (result, count + more)
    }

    /// Returns an index of an entry at the path. The error is the index at which the path would be inserted: the number
    /// of paths below it. The second result is the number of names of directories and paths of entries that were
    /// compared.
    ///
    /// With D directories and n entries, of which r are below the directory of the path, the number has this bound:
    ///
    /// - digits of D, plus digits of r, plus 2
    /// - if none is below the directory, digits of D, plus digits of n, plus 2
    /// - for a path without a slash, digits of n, plus 1.
    ///
    /// It is at least one if there are entries.
    pub fn search_path(&self, path: &[u8]) -> (Result<usize, usize>, usize)
        ensures { PathAnswer (IsBounded self.now path.now) path.now self.now result }
    {
        self.search(path, None)
    }

    /// Returns the index of the entry at the path and the stage. The error is the index at which it would be inserted:
    /// the number of entries that are below it by path, then stage. The second result is the number of names and paths
    /// that were compared, with the bounds of [`search_path`](DirectoryTable::search_path).
    ///
    /// This is guaranteed if entries strictly increase by path, then stage. Otherwise an index still has that path and
    /// stage, and an error is only at most the number of entries.
    pub fn search_path_and_stage(&self, path: &[u8], stage: Stage) -> (Result<usize, usize>, usize)
        ensures { KeyAnswer (IsBounded self.now path.now) path.now (stage_code stage)
            self.now result }
    {
        self.search(path, Some(stage))
    }
}

impl PathSearch for DirectoryTable<'_> {
    ghost list = { λ t. t };

    ghost compares = { λ t path. IsBounded t path };

    fn search_path(&self, path: &[u8]) -> (Result<usize, usize>, usize) {
        DirectoryTable::search_path(self, path)
    }

    fn search_path_and_stage(&self, path: &[u8], stage: Stage) -> (Result<usize, usize>, usize) {
        DirectoryTable::search_path_and_stage(self, path, stage)
    }
}
