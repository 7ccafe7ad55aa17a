//! Borrows the parts of an index mutably.

ghost use Rattle.std.specs.Borrow.{sem};
ghost use Rattle.std.specs.Option.{option_copied_mut};
ghost use Rattle.std.specs.Prelude.{◌≡◌, ◌<◌, length, slice_index_or};
ghost use Rattle.index_model.specs.Contents.{parts_entries, parts_storage};
ghost use Rattle.index_model.specs.Lending.{LendsPartsEntries, LendsPartsEntryAt, LendsPartsTree};

use crate::Parts;
use entry_list::{Entry, PathStorageRef};
use ext_tree::Tree;

impl Parts {
    /// Borrows the entries mutably. The extensions aren't known to match them afterwards. Everything else is unchanged.
    pub fn entries_mut(&mut self) -> &mut [Entry]
        ensures* writes_back { sem 𝓛 (LendsPartsEntries self.entry result) }
        ensures value { result.now ≡ parts_entries self.old }
    {
        self.extensions_fit = false;
        self.entries.as_mut_slice()
    }

    /// Borrows the entries mutably, and the storage of their paths. The extensions aren't known to match the entries
    /// afterwards. Everything else is unchanged.
    pub fn entries_mut_and_storage(&mut self) -> (&mut [Entry], PathStorageRef<'_>)
        ensures* writes_back { sem 𝓛 (LendsPartsEntries self.entry result.0) }
        ensures value { result.0.now ≡ parts_entries self.old }
        ensures storage { result.1.now ≡ parts_storage self.old }
    {
        self.extensions_fit = false;
        (self.entries.as_mut_slice(), self.path_backing.as_slice())
    }

    /// Borrows the entry at an index, counted from 0, mutably. The extensions aren't known to match the entries
    /// afterwards. Everything else is unchanged.
    pub fn entry_mut(&mut self, idx: usize) -> &mut Entry
        requires { idx < length (parts_entries self.old) }
        ensures* writes_back { sem 𝓛 (LendsPartsEntryAt idx self.entry result) }
        ensures value { result.now ≡ slice_index_or (parts_entries self.old) idx result.now }
    {
        self.extensions_fit = false;
        &mut self.entries[idx]
    }

    /// Borrows the cache tree mutably, if there is one. Everything else is unchanged.
    pub fn tree_mut(&mut self) -> Option<&mut Tree>
        ensures* writes_back { sem 𝓛 (LendsPartsTree self.entry result) }
        ensures value { option_copied_mut result ≡ self.old.extensions.tree }
    {
        self.extensions.tree_mut()
    }
}
