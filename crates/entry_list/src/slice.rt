//! Entries with the storage of their paths, borrowed as one list.

ghost use Rattle.std.specs.Prelude.{◌≡◌, ◌<◌, ◌≤◌, List, length, take};
ghost use Rattle.std.specs.List.{HoldsAt};
ghost use Rattle.entry_list.specs.Record.{Record, records_in};
ghost use Rattle.entry_list.specs.Slice.{IsRecordOf, StandsTo};

use crate::Entry;
use std::cmp::Ordering;
use std::marker::Model;

/// Borrowed entries with the storage of their paths. The value is the list of their records.
#[derive(Drop)]
pub struct EntrySlice<'a> {
    entries: &'a [Entry],
    storage: &'a [u8],
}

impl<'a> Model for EntrySlice<'a> {
    ghost Value = { List Record };

    ghost view = { λ s. records_in s.storage.now s.entries.now };
}

impl<'a> EntrySlice<'a> {
    /// Returns the entries with their paths.
    pub fn new(entries: &'a [Entry], storage: &'a [u8]) -> EntrySlice<'a>
        ensures { result ≡ records_in storage.now entries.now }
    {
        EntrySlice { entries, storage }
    }

    /// Returns the number of entries.
    pub fn len(&self) -> usize
        ensures { result ≡ length self.now }
    {
        self.entries.len()
    }

    /// Returns the first `len` entries.
    pub fn first(&self, len: usize) -> EntrySlice<'a>
        requires { len ≤ length self.now }
        ensures { result ≡ take len self.now }
    {
        let entries = self.entries;
        EntrySlice {
            entries: &entries[..len],
            storage: self.storage,
        }
    }

    /// Returns the entry at this index.
    pub fn entry(&self, place: usize) -> &'a Entry
        requires { place < length self.now }
        ensures { HoldsAt (IsRecordOf result.now) self.now place }
    {
        let entries = self.entries;
        &entries[place]
    }

    /// Returns the path of the entry at this index.
    pub fn path(&self, place: usize) -> &'a [u8]
        requires { place < length self.now }
        ensures { HoldsAt (λ r. r.path ≡ result.now) self.now place }
    {
        let entries = self.entries;
        entries[place].path_in(self.storage)
    }

    /// Returns how the entry at index `a` compares with the one at index `b`: by path, and at the same path by the
    /// number of the stage.
    pub fn compare(&self, a: usize, b: usize) -> Ordering
        requires a_inside { a < length self.now }
        requires b_inside { b < length self.now }
        ensures { StandsTo self.now a b result }
    {
        let by_path = Entry::cmp_filepaths(self.path(a), self.path(b));
        by_path.then(self.entry(a).stage_raw().cmp(&self.entry(b).stage_raw()))
    }
}
