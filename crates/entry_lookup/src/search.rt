//! Searches of ordered entries by path, and by prefix.

ghost use Rattle.std.specs.Prelude.{◌++◌, length, map};
ghost use Rattle.entry_fields.specs.Flags.{stage_code};
ghost use Rattle.entry_lookup.specs.SearchSteps.{AskedAnswer, asked_cmp, prefix_answers};
ghost use Rattle.entry_lookup.specs.Searches.{IsHalving, SearchesKey, SearchesPath};

use base_search::ordered::{Ordered, search_within};
use base_search::prefix::compare_pieces;
use entry_fields::entry::{Stage, StageRaw};
use entry_list::Entry;
use entry_list::slice::EntrySlice;
use std::cmp::Ordering;

/// Entries, compared with a path and optionally a stage.
#[derive(Clone, Copy)]
pub struct Asked<'a> {
    /// The entries.
    pub entries: &'a EntrySlice<'a>,
    /// The path that is searched for.
    pub path: &'a [u8],
    /// The stage that is searched for, or None for any stage.
    pub stage: Option<Stage>,
}

impl Ordered for Asked<'_> {
    ghost answers = { λ s. map (asked_cmp s.path.now s.stage) s.entries.now };

    fn len(&self) -> usize {
        self.entries.len()
    }

    fn compare(&self, place: usize) -> Ordering {
        let by_path = Entry::cmp_filepaths(self.entries.path(place), self.path);
        match self.stage {
            None => by_path,
            Some(stage) => {
                let by_stage = self
                    .entries
                    .entry(place)
                    .stage_raw()
                    .cmp(&(stage as StageRaw));
                by_path.then(by_stage)
            }
        }
    }
}

/// Entries, whose paths are compared with a prefix that is given in two pieces.
#[derive(Clone, Copy)]
pub struct Prefix<'a> {
    /// The entries.
    pub entries: &'a EntrySlice<'a>,
    /// The prefix up to its tail.
    pub prefix: &'a [u8],
    /// The rest of the prefix, for example the slash after a directory's path, or nothing.
    pub tail: &'a [u8],
}

impl Ordered for Prefix<'_> {
    ghost answers = { λ s. prefix_answers (s.prefix.now ++ s.tail.now) s.entries.now };

    fn len(&self) -> usize {
        self.entries.len()
    }

    fn compare(&self, place: usize) -> Ordering {
        compare_pieces(self.entries.path(place), self.prefix, self.tail)
    }
}

/// Returns the first index of an entry at the path, and at the stage if one is given, or the index at which it would be
/// inserted. The second result is the number of paths that were compared.
pub(crate) fn search(
    entries: &EntrySlice<'_>,
    path: &[u8],
    stage: Option<Stage>,
) -> (Result<usize, usize>, usize)
    ensures { AskedAnswer (IsHalving (length entries.now)) path.now stage entries.now result }
{
    let places = Asked {
        entries,
        path,
        stage,
    };
    search_within(&places, 0, entries.len())
}

/// Returns an index of an entry at the path, at any stage. The error is the index at which the path would be inserted:
/// the number of paths below it.
///
/// The second result is how often the path was compared with that of an entry. For n entries, in any order, it is at
/// most one more than the number of n's binary digits. It is at least one if there are entries.
///
/// This is guaranteed if the paths never fall. Otherwise an index still has that path, and an error is only at most the
/// number of entries.
pub fn search_path(entries: &EntrySlice<'_>, path: &[u8]) -> (Result<usize, usize>, usize)
    ensures { SearchesPath path.now entries.now result }
{
    search(entries, path, None)
}

/// Returns the index of the entry at the path and the stage. The error is the index at which it would be inserted: the
/// number of entries that are below it by path, then stage. The second result is how often the path was compared with
/// that of an entry, with the bounds of [`search_path`].
///
/// This is guaranteed if entries strictly increase by path, then stage. Otherwise an index still has that path and
/// stage, and an error is only at most the number of entries.
pub fn search_path_and_stage(
    entries: &EntrySlice<'_>,
    path: &[u8],
    stage: Stage,
) -> (Result<usize, usize>, usize)
    ensures { SearchesKey path.now (stage_code stage) entries.now result }
{
    search(entries, path, Some(stage))
}
