//! Removes entries from a state.

ghost use Rattle.std.specs.Prelude.{◌≡◌, ◌<◌, Some, length, remove, slice_get};
ghost use Rattle.entry_list.specs.Removed.{ChangesFlagsAlone, LeavesPaths};
ghost use Rattle.index_state.specs.Edits.{edited};
ghost use Rattle.index_state.specs.State.{PathsInStorage, contents, entries_of, records, storage_of};
ghost use Rattle.index_state.specs.State.{KeepsStorable};
ghost use Rattle.index_state.specs.StateEdits.{FiltersBy, FiltersByPlace, RemovesFrom};

use crate::State;
use entry_list::{Entry, remove};

impl State {
    /// Calls the closure for every entry, from the first to the last and once each, and removes those for which it
    /// returns true. The closure gets the entry's path and its index at that call. The other entries keep their order,
    /// with the closure's changes. The extensions aren't known to match the entries afterwards. The storage of paths
    /// and everything else are unchanged. No memory is allocated.
    ///
    /// If the closure returns a test of the record, or of the index and the record, and changes no entry, the remaining
    /// records are filtered by it. A closure that changes only flags leaves a storable state storable. One that changes
    /// no entry's range leaves the paths in the storage.
    pub fn remove_entries<F: FnMut(usize, &[u8], &mut Entry) -> bool>(
        &mut self,
        mut should_remove: F,
    )
        requires { F.IsAlwaysCallable should_remove }
        ensures removed { RemovesFrom (λ f i p e b o g. F.step f i p e b o g) should_remove
            self.old self.new }
        ensures filtered { FiltersBy F.FnMut should_remove self.old self.new }
        ensures filtered_by_place { FiltersByPlace F.FnMut should_remove self.old self.new }
        ensures storage { storage_of self.new ≡ storage_of self.old }
        ensures others { contents self.new ≡ edited (contents self.old) (records self.new) }
        ensures placed { LeavesPaths F.FnMut should_remove
            → PathsInStorage self.old → PathsInStorage self.new }
        ensures storable { ChangesFlagsAlone F.FnMut should_remove
            → KeepsStorable self.old self.new }
    {
        remove::remove_entries(
            &mut self.parts.entries,
            &self.parts.path_backing,
            &mut should_remove,
        );
        self.parts.extensions_fit = false;
    }

    /// Removes the entry at an index, counted from 0, and returns it. The other entries keep their order, and the
    /// extensions aren't known to match them. The storage of paths, including that of the entry, and everything else
    /// are unchanged.
    pub fn remove_entry_at_index(&mut self, index: usize) -> Entry
        requires { index < length (entries_of self.old) }
        ensures given { slice_get (entries_of self.old) index ≡ Some result }
        ensures removed { entries_of self.new ≡ remove (entries_of self.old) index }
        ensures storage { storage_of self.new ≡ storage_of self.old }
        ensures others { contents self.new ≡ edited (contents self.old) (records self.new) }
        ensures placed { PathsInStorage self.old → PathsInStorage self.new }
        ensures storable { KeepsStorable self.old self.new }
    {
        self.parts.extensions_fit = false;
        self.parts.entries.remove(index)
    }
}
