//! Lookups of a state's entries by range, by directory and without regard to case.

ghost use Rattle.std.specs.Bool.{OnTrue};
ghost use Rattle.std.specs.List.{list_any};
ghost use Rattle.std.specs.Option.{option_copied};
ghost use Rattle.std.specs.Prelude.{◌≡◌, ◌↔◌, ◌≤◌, ℕ, List, Option, length, take, is_some};
ghost use Rattle.std.specs.Prelude.{true, IfOk, IfSome, IsTrue};
ghost use Rattle.std.specs.declared.ops.Range.{Range};
ghost use Rattle.entry_fields.specs.Flags.{stage_code};
ghost use Rattle.entry_lookup.specs.Closest.{closest, stands_in};
ghost use Rattle.entry_lookup.specs.FilterMap.{IsFilterOf};
ghost use Rattle.entry_lookup.specs.Folded.{folded_closest, folded_place};
ghost use Rattle.entry_lookup.specs.Lookup.{IsKeyAt};
ghost use Rattle.entry_list.specs.Order.{IsOrderedByPath};
ghost use Rattle.entry_lookup.specs.Range.{HasStageOf, IsPart, IsPrefixRange, IsRange, LiesWithin, is_at};
ghost use Rattle.entry_lookup.specs.Range.{place_of_path};
ghost use Rattle.entry_lookup.specs.Folded.{IsNamed};
ghost use Rattle.entry_lookup.specs.Lookup.{insertion_of_path};
ghost use Rattle.entry_lookup.specs.Searches.{IsHalving};
ghost use Rattle.index_state.specs.State.{entries_of, records, storage_of};
ghost use Rattle.index_state.specs.StateSearches.{FindsClosest, FindsEntry, FindsPart, FindsPlace, FindsPrefixed};
ghost use Rattle.index_state.specs.StateSearches.{IsEntryWith, entry_by};

use crate::State;
use entry_fields::entry::Stage;
use entry_list::Entry;
use entry_lookup::folded::AccelerateLookup;
use entry_lookup::paths::{self, FilterMapPaths};
use entry_lookup::tables::{self, DirectoryTable, PathSearch};
use entry_lookup::{directory, range};
use std::alloc::{AllocError, Global};
use std::ops::Range;

impl State {
    /// Returns the paths of the entries, each with the value that the closure returns for it. The closure is called
    /// once for each entry, in their order. An entry for which it returns `None` is omitted.
    pub fn entries_with_paths_by_filter_map<'a, T, F: FnMut(&'a [u8], &'a Entry) -> Option<T>>(
        &'a self,
        filter_map: F,
    ) -> FilterMapPaths<'a, F>
        ensures { IsFilterOf (entries_of self.now) (storage_of self.now) filter_map result }
    {
        paths::entries_with_paths_by_filter_map(self.entries(), self.path_backing(), filter_map)
    }

    /// Returns the index of the entry at the path and the stage among the first `upper_bound` entries, counted from 0,
    /// or `None`.
    ///
    /// If these strictly increase by path, then stage, the index is the only one, and `None` means that there is no
    /// such entry. In any other order the entry at a returned index still has that path and stage, and `None` has no
    /// meaning.
    pub fn entry_index_by_path_and_stage_bounded(
        &self,
        path: &[u8],
        stage: Stage,
        upper_bound: usize,
    ) -> Option<usize>
        requires { upper_bound ≤ length (entries_of self.now) }
        ensures found { IfSome result
            (IsKeyAt path.now (stage_code stage) (take upper_bound (records self.now))) }
        ensures answer { FindsPlace path.now (stage_code stage)
            (take upper_bound (records self.now)) result }
    {
        range::entry_index_by_path_and_stage_bounded(&self.slice(), path, stage, upper_bound)
    }

    /// Returns the entry at the path with stage 0, or else the one with stage 2 (our side of a merge), or else `None`.
    ///
    /// This is guaranteed if the entries strictly increase by path, then stage. In any other order a returned entry
    /// still has that path and one of these stages, and `None` has no meaning.
    pub fn entry_by_path(&self, path: &[u8]) -> Option<&Entry>
        ensures found { IfSome result
            (λ e. IsEntryWith (HasStageOf path.now) self.now e.now) }
        ensures answer { FindsEntry (place_of_path path.now) self.now (option_copied result) }
    {
        let place = range::place_by_path(&self.slice(), path)?;
        Some(&self.parts.entries[place])
    }

    /// Returns the indexes of the entries at the path, counted from 0, or `None` if there are none.
    ///
    /// If the paths of the entries never decrease, these are all such indexes, and `None` means that there are none. In
    /// any other order the indexes are only known to be below the number of entries.
    pub fn entry_range(&self, path: &[u8]) -> Option<Range<usize>>
        ensures in_range { IfSome result (IsPart (records self.now)) }
        ensures exactly { IsOrderedByPath (records self.now)
            → IsRange (is_at path.now) (records self.now) result }
    {
        range::entry_range(&self.slice(), path)
    }

    /// Returns the entries whose path begins with the bytes of the prefix, or `None` if there are none. Their indexes
    /// are those of [`prefixed_entries_range`](State::prefixed_entries_range).
    pub fn prefixed_entries(&self, prefix: &[u8]) -> Option<&[Entry]>
        ensures in_range { FindsPart (λ range. IfSome range (LiesWithin (entries_of self.now)))
            self.now (option_copied result) }
        ensures exactly { IsOrderedByPath (records self.now)
            → FindsPrefixed prefix.now self.now (option_copied result) }
        ensures empty { length prefix.now ≡ 0
            → FindsPrefixed prefix.now self.now (option_copied result) }
    {
        let range = range::prefixed_entries_range(&self.slice(), prefix)?;
        Some(&self.parts.entries[range])
    }

    /// Returns the indexes of the entries whose path begins with the bytes of the prefix, counted from 0, or `None` if
    /// there are none. For the empty prefix it returns all indexes, and `0..0` if there are no entries.
    ///
    /// If the paths of the entries never decrease, these are all such indexes. In any other order the indexes are only
    /// known to be below the number of entries.
    pub fn prefixed_entries_range(&self, prefix: &[u8]) -> Option<Range<usize>>
        ensures in_range { IfSome result (LiesWithin (records self.now)) }
        ensures exactly { IsOrderedByPath (records self.now)
            → IsPrefixRange prefix.now (records self.now) result }
        ensures empty { length prefix.now ≡ 0 → IsPrefixRange prefix.now (records self.now) result }
    {
        range::prefixed_entries_range(&self.slice(), prefix)
    }

    /// Returns the start of the prefix's range, which is the number of paths below it, and how many times the prefix
    /// was compared with a path. For n entries, in any order, that is at most the number of binary digits of n plus
    /// one. If there are entries, it is at least one.
    ///
    /// The start is guaranteed if the paths of the entries never decrease. In any other order it is at most the number
    /// of entries.
    pub fn search_prefix(&self, prefix: &[u8]) -> (usize, usize)
        ensures in_range { result.0 ≤ length (records self.now) }
        ensures place { IsOrderedByPath (records self.now)
            → result.0 ≡ insertion_of_path prefix.now (records self.now) }
        ensures count { IsHalving (length (records self.now)) result.1 }
    {
        range::search_prefix(&self.slice(), prefix)
    }

    /// Returns the entry that is closest to the directory, or `None`.
    ///
    /// If entries at the directory's path represent a directory themselves (a sparse directory or a submodule), it is
    /// the first of them. Otherwise it is the first entry below the directory. The path of an entry below it continues
    /// with a slash after the directory's path.
    ///
    /// This is guaranteed if the paths of the entries never decrease. In any other order a returned entry still is the
    /// directory or is below it, and `None` has no meaning.
    pub fn entry_closest_to_directory_or_directory(&self, directory: &[u8]) -> Option<&Entry>
        ensures found { IfSome result
            (λ e. IsEntryWith (λ r. stands_in directory.now r ≡ true) self.now e.now) }
        ensures answer { FindsClosest directory.now self.now (option_copied result) }
    {
        let place = directory::closest_place(&self.slice(), directory)?;
        Some(&self.parts.entries[place])
    }

    /// Returns whether the path is a directory: an entry represents it, or entries are below it.
    ///
    /// This is guaranteed if the paths of the entries never decrease. In any other order true still means that there is
    /// such an entry, and false has no meaning.
    pub fn path_is_directory(&self, path: &[u8]) -> bool
        ensures found { OnTrue result (list_any (stands_in path.now) (records self.now) ≡ true) }
        ensures answer { IsOrderedByPath (records self.now)
            → result ≡ is_some (closest path.now (records self.now)) }
    {
        directory::path_is_directory(&self.slice(), path)
    }

    /// Builds the table for the lookups of this state's entries without regard to case. It borrows the state and
    /// allocates memory. The lookups by it allocate none.
    ///
    /// The error is an allocation failure. Nothing is then left of the table.
    pub fn prepare_icase_backing(&self, alloc: Global) -> Result<AccelerateLookup<'_>, AllocError>
        ensures { IfOk result (λ lookup. lookup ≡ records self.now) }
    {
        AccelerateLookup::new(alloc, self.entries(), self.path_backing())
    }

    /// Returns the first entry at the path, in the order of the entries, or `None`. The case of ASCII letters is
    /// ignored on request. The table must be built from these entries, which may be in any order.
    pub fn entry_by_path_icase(
        &self,
        path: &[u8],
        ignore_case: bool,
        lookup: &AccelerateLookup<'_>,
    ) -> Option<&Entry>
        requires { lookup.now ≡ records self.now }
        ensures { option_copied result ≡ entry_by (folded_place ignore_case path.now) self.now }
    {
        let place = lookup.search_path_icase(path, ignore_case).0?;
        Some(&self.parts.entries[place])
    }

    /// Returns the index of the entry that [`entry_by_path_icase`](State::entry_by_path_icase) returns, and how many
    /// paths were compared. For n entries that is at most the number of binary digits of n plus one. If there are
    /// entries, it is at least one.
    pub fn search_path_icase(
        &self,
        path: &[u8],
        ignore_case: bool,
        lookup: &AccelerateLookup<'_>,
    ) -> (Option<usize>, usize)
        requires { lookup.now ≡ records self.now }
        ensures answer { result.0 ≡ folded_place ignore_case path.now (records self.now) }
        ensures count { IsHalving (length (records self.now)) result.1 }
    {
        lookup.search_path_icase(path, ignore_case)
    }

    /// Returns the first entry, in the order of the entries, that represents the directory or is below it, or `None`.
    /// The case of ASCII letters is ignored on request. The table must be built from these entries, which may be in any
    /// order.
    pub fn entry_closest_to_directory_or_directory_icase(
        &self,
        directory: &[u8],
        ignore_case: bool,
        lookup: &AccelerateLookup<'_>,
    ) -> Option<&Entry>
        requires { lookup.now ≡ records self.now }
        ensures { option_copied result
            ≡ entry_by (folded_closest ignore_case directory.now) self.now }
    {
        let place = lookup.search_directory_icase(directory, ignore_case).0?;
        Some(&self.parts.entries[place])
    }

    /// Returns the index of the entry of
    /// [`entry_closest_to_directory_or_directory_icase`](State::entry_closest_to_directory_or_directory_icase), and how
    /// many names were compared. For m directories that is at most the number of binary digits of m plus one. If there
    /// are directories, it is at least one.
    pub fn search_directory_icase(
        &self,
        directory: &[u8],
        ignore_case: bool,
        lookup: &AccelerateLookup<'_>,
    ) -> (Option<usize>, usize)
        requires { lookup.now ≡ records self.now }
        ensures answer { result.0 ≡ folded_closest ignore_case directory.now (records self.now) }
        ensures count { (names : List (List ℕ)) × IsNamed ignore_case (records self.now) names
            × IsHalving (length names) result.1 }
    {
        lookup.search_directory_icase(directory, ignore_case)
    }

    /// Returns whether the path is a directory: an entry represents it, or entries are below it.
    pub fn path_is_directory_icase(
        &self,
        path: &[u8],
        ignore_case: bool,
        lookup: &AccelerateLookup<'_>,
    ) -> bool
        requires { lookup.now ≡ records self.now }
        ensures { result ≡ is_some (folded_closest ignore_case path.now (records self.now)) }
    {
        lookup.path_is_directory_icase(path, ignore_case)
    }

    /// Returns whether the paths of the entries never decrease. No memory is allocated.
    pub fn is_ordered_by_path(&self) -> bool
        ensures { IsTrue result ↔ IsOrderedByPath (records self.now) }
    {
        tables::is_ordered_by_path(&self.slice())
    }

    /// Builds the table of the directories that have entries below them, for searches by directory. It borrows the
    /// state and allocates memory. The searches by it allocate none.
    ///
    /// [`is_ordered_by_path`](State::is_ordered_by_path) tests the precondition.
    ///
    /// The error is an allocation failure. Nothing is then left of the table.
    pub fn prepare_directory_table(&self, alloc: Global) -> Result<DirectoryTable<'_>, AllocError>
        requires { IsOrderedByPath (records self.now) }
        ensures { IfOk result (λ table. table ≡ records self.now) }
    {
        DirectoryTable::new(alloc, self.entries(), self.path_backing())
    }
}

impl PathSearch for State {
    ghost list = { records };

    ghost compares = { λ s _. IsHalving (length (records s)) };

    fn search_path(&self, path: &[u8]) -> (Result<usize, usize>, usize) {
        State::search_path(self, path)
    }

    fn search_path_and_stage(&self, path: &[u8], stage: Stage) -> (Result<usize, usize>, usize) {
        State::search_path_and_stage(self, path, stage)
    }
}
