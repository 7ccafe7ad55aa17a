//! Access to the entries of an index, and edits of them.

mod edit;
mod extensions;
mod lookup;
mod remove;
mod smudge;
mod sort;
mod storable;
mod storage;

ghost use Rattle.std.specs.Borrow.{sem};
ghost use Rattle.std.specs.Prelude.{◌≡◌, ◌≢◌, ◌≤◌, All, IfErr, IfOk, IfSome, OnErr, OnOk, length, ok_or, option_copied};
ghost use Rattle.entry_fields.specs.Flags.{stage_code};
ghost use Rattle.index_state.specs.Edits.{LendsEntries};
ghost use Rattle.entry_list.specs.Order.{IsOrderedByPath, IsStrictlyOrdered};
ghost use Rattle.entry_list.specs.Record.{IdsAreOf};
ghost use Rattle.entry_lookup.specs.Lookup.{HasKey, IsKeyAt, IsPathAt, IsPathGap, insertion_of, record_index};
ghost use Rattle.entry_lookup.specs.Searches.{IsHalving};
ghost use Rattle.index_model.specs.Storable.{IsStorable};
ghost use Rattle.index_parts.specs.Id.{id_kind};
ghost use Rattle.index_parts.specs.declared.hash.Kind.{Kind};
ghost use Rattle.index_state.specs.State.{PathsInStorage, contents, entries_of, records};
ghost use Rattle.index_state.specs.Edits.{AddsEntry, IsUnchanged, record_from_parts, with_record};
ghost use Rattle.index_state.specs.StateSearches.{FindsEntry, FindsPlace, IsEntryWith};

use crate::State;
use entry_fields::entry::{Flags, Mode, Stage, Stat};
use entry_list::list::append;
use entry_list::{Entry, Pathless};
use entry_lookup::search;
use index_parts::hash::ObjectId;
use std::alloc::AllocError;

impl State {
    /// Returns the index of the entry at the path and the stage, counted from 0, or `None`.
    ///
    /// If the entries strictly increase by path, then stage, the index is the only one, and `None` means that there is
    /// no such entry. In any other order the entry at a returned index still has that path and stage, and `None` has no
    /// meaning.
    pub fn entry_index_by_path_and_stage(&self, path: &[u8], stage: Stage) -> Option<usize>
        ensures found { IfSome result (IsKeyAt path.now (stage_code stage) (records self.now)) }
        ensures answer { FindsPlace path.now (stage_code stage) (records self.now) result }
    {
        self.search_path_and_stage(path, stage).0.ok()
    }

    /// Returns the entry at the path and the stage, or `None`. Its index is that of
    /// [`entry_index_by_path_and_stage`](State::entry_index_by_path_and_stage).
    pub fn entry_by_path_and_stage(&self, path: &[u8], stage: Stage) -> Option<&Entry>
        ensures found { IfSome result
            (λ e. IsEntryWith (HasKey path.now (stage_code stage)) self.now e.now) }
        ensures answer { FindsEntry (record_index path.now (stage_code stage)) self.now
            (option_copied result) }
    {
        let idx = self.entry_index_by_path_and_stage(path, stage)?;
        Some(&self.parts.entries[idx])
    }

    /// Returns the index of an entry at the path, whatever its stage. The error is the index at which the path would be
    /// inserted: the number of paths below it.
    ///
    /// This is guaranteed if the paths of the entries never decrease. In any other order the entry at a returned index
    /// still has that path. An error is then at most the number of entries.
    pub fn entry_index_by_path(&self, path: &[u8]) -> Result<usize, usize>
        ensures found { IfOk result (IsPathAt path.now (records self.now)) }
        ensures in_range { IfErr result (λ i. i ≤ length (records self.now)) }
        ensures absent { IsOrderedByPath (records self.now)
            → IfErr result (IsPathGap path.now (records self.now)) }
    {
        self.search_path(path).0
    }

    /// Returns what [`entry_index_by_path`](State::entry_index_by_path) returns, and how many times the path was
    /// compared with that of an entry. For n entries, in any order, that is at most the number of binary digits of n
    /// plus one. If there are entries, it is at least one.
    pub fn search_path(&self, path: &[u8]) -> (Result<usize, usize>, usize)
        ensures found { IfOk result.0 (IsPathAt path.now (records self.now)) }
        ensures in_range { IfErr result.0 (λ i. i ≤ length (records self.now)) }
        ensures absent { IsOrderedByPath (records self.now)
            → IfErr result.0 (IsPathGap path.now (records self.now)) }
        ensures count { IsHalving (length (records self.now)) result.1 }
    {
        search::search_path(&self.slice(), path)
    }

    /// Returns the index of the entry at the path and the stage, and how many times the path was compared with that of
    /// an entry. The error is the index at which such an entry would be inserted: the number of entries below it by
    /// path, then stage. The number of comparisons is bounded as in [`search_path`](State::search_path).
    ///
    /// This is guaranteed if the entries strictly increase by path, then stage. In any other order the entry at a
    /// returned index still has that path and stage. An error is then at most the number of entries.
    pub fn search_path_and_stage(&self, path: &[u8], stage: Stage) -> (Result<usize, usize>, usize)
        ensures found { IfOk result.0 (IsKeyAt path.now (stage_code stage) (records self.now)) }
        ensures in_range { IfErr result.0 (λ i. i ≤ length (records self.now)) }
        ensures answer { IsStrictlyOrdered (records self.now)
            → result.0 ≡ ok_or (record_index path.now (stage_code stage) (records self.now))
            (insertion_of path.now (stage_code stage) (records self.now)) }
        ensures count { IsHalving (length (records self.now)) result.1 }
    {
        search::search_path_and_stage(&self.slice(), path, stage)
    }
}

impl State {
    /// Borrows the entries mutably. The state keeps what was last written through the slice. The extensions aren't
    /// known to match the entries afterwards. Everything else is unchanged.
    ///
    /// An entry from another state brings a range of that state's storage.
    /// [`paths_in_storage`](State::paths_in_storage) returns whether all ranges are still inside this storage.
    pub fn entries_mut(&mut self) -> &mut [Entry]
        ensures* writes_back { sem 𝓛 (LendsEntries self.entry result) }
        ensures value { result.now ≡ entries_of self.old }
    {
        self.parts.entries_mut()
    }

    /// Appends an entry, and appends its path to the storage. The extensions aren't known to match the entries
    /// afterwards. Everything else is unchanged.
    ///
    /// It is dangerous because nothing is checked. The entry is at the end wherever it belongs, even if another entry
    /// has its path and stage. Searches by path guarantee less until the entries are in order again.
    ///
    /// A state that can be written still can be, if the id is of its hash algorithm, and the path has fewer than 4095
    /// bytes or no NUL.
    ///
    /// The error is an allocation failure. The state is then unchanged.
    pub fn dangerously_push_entry(
        &mut self,
        stat: Stat,
        id: ObjectId,
        flags: Flags,
        mode: Mode,
        path: &[u8],
    ) -> Result<(), AllocError>
        ensures added { OnOk result
            (AddsEntry self.old self.new (record_from_parts path.now stat id flags mode)) }
        ensures pushed { OnOk result (PathsInStorage self.old → contents self.new
            ≡ with_record (contents self.old) (record_from_parts path.now stat id flags mode)) }
        ensures placed { OnOk result (PathsInStorage self.old → PathsInStorage self.new) }
        ensures ids { (kind : Kind) → OnOk result (IdsAreOf kind (entries_of self.old)
            → id_kind id ≡ kind → IdsAreOf kind (entries_of self.new)) }
        ensures storable { OnOk result (PathsInStorage self.old → IsStorable (contents self.old)
            → id_kind id ≡ (contents self.old).kind
            → (4095 ≤ length path.now → All (λ b. b ≢ 0) path.now) → IsStorable (contents self.new)) }
        ensures err { OnErr result (IsUnchanged self.old self.new) }
    {
        let entry = Pathless {
            stat,
            id,
            flags,
            mode,
        };
        append(
            &mut self.parts.entries,
            &mut self.parts.path_backing,
            entry,
            path,
        )?;
        self.parts.extensions_fit = false;
        Ok(())
    }
}
