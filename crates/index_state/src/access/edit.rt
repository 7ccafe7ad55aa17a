//! Setters of a state, and calls that borrow or return its entries.

ghost use Rattle.std.specs.Borrow.{sem};
ghost use Rattle.std.specs.Option.{option_copied_mut};
ghost use Rattle.std.specs.Prelude.{◌≡◌, IfSome};
ghost use Rattle.entry_fields.specs.Flags.{stage_code};
ghost use Rattle.entry_lookup.specs.Lookup.{HasKey, record_index};
ghost use Rattle.index_state.specs.Edits.{LendsEntries, LendsEntryAt, with_time, with_version};
ghost use Rattle.index_state.specs.State.{contents, entries_of, storage_of};
ghost use Rattle.index_state.specs.StateSearches.{FindsEntry, IsEntryWith};

use crate::State;
use entry_fields::entry::{FileTime, Stage};
use entry_list::{Entry, PathStorage, PathStorageRef, Version};

impl State {
    /// Sets the time at which the file was last written. Everything else is unchanged.
    pub fn set_timestamp(&mut self, timestamp: FileTime)
        ensures set { contents self.new ≡ with_time (contents self.old) timestamp }
        ensures entries { entries_of self.new ≡ entries_of self.old }
        ensures storage { storage_of self.new ≡ storage_of self.old }
    {
        self.parts.timestamp = timestamp;
    }

    /// Sets the version, as it is in a file that was just written. Everything else is unchanged. The version of a later
    /// write depends only on the entries.
    pub fn set_version(&mut self, version: Version)
        ensures set { contents self.new ≡ with_version (contents self.old) version }
        ensures entries { entries_of self.new ≡ entries_of self.old }
        ensures storage { storage_of self.new ≡ storage_of self.old }
    {
        self.parts.version = version;
    }

    /// Returns the entries and the storage of their paths. Everything else is dropped.
    pub fn into_entries(self) -> (Vec<Entry>, PathStorage)
        ensures entries { result.0.items ≡ entries_of self }
        ensures storage { result.1.items ≡ storage_of self }
    {
        (self.parts.entries, self.parts.path_backing)
    }

    /// Borrows the entries mutably, and the storage of their paths. The state keeps what was last written through the
    /// slice. The extensions aren't known to match the entries afterwards. Everything else is unchanged.
    pub fn entries_mut_and_pathbacking(&mut self) -> (&mut [Entry], PathStorageRef<'_>)
        ensures* writes_back { sem 𝓛 (LendsEntries self.entry result.0) }
        ensures value { result.0.now ≡ entries_of self.old }
        ensures storage { result.1.now ≡ storage_of self.old }
    {
        self.parts.entries_mut_and_storage()
    }

    /// Borrows the entry at the path and the stage mutably, or returns `None`. The entry is that of
    /// [`entry_by_path_and_stage`](State::entry_by_path_and_stage). The state keeps what was last written through the
    /// borrow. The extensions aren't known to match the entries after a borrow. Everything else is unchanged.
    pub fn entry_mut_by_path_and_stage(&mut self, path: &[u8], stage: Stage) -> Option<&mut Entry>
        ensures* writes_back { sem 𝓛 (LendsEntryAt path.now (stage_code stage) self.entry result) }
        ensures found { IfSome result
            (λ e. IsEntryWith (HasKey path.now (stage_code stage)) self.old e.now) }
        ensures answer { FindsEntry (record_index path.now (stage_code stage)) self.old
            (option_copied_mut result) }
    {
        let idx = self.entry_index_by_path_and_stage(path, stage)?;
        Some(self.parts.entry_mut(idx))
    }
}
