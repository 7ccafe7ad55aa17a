//! Lists of entries that own the storage of their paths.

ghost use Rattle.std.specs.Prelude.{◌≡◌, ◌≤◌, ◌+◌, ◌++◌, [], ℕ, None, All, length, take, slice_range, unwrap_or};
ghost use Rattle.std.specs.Prelude.{IfOk, OnOk, OnErr};
ghost use Rattle.std.specs.Vec.{vec_capacity};
ghost use Rattle.entry_list.specs.Entries.{last_path};
ghost use Rattle.entry_list.specs.Held.{Appends, Held, IsFrontOfLast, pushed};
ghost use Rattle.entry_list.specs.Record.{IsPlaced, records_in, with_path};

use crate::path_range::PathRange;
use crate::slice::EntrySlice;
use crate::{Entry, PathStorage, Pathless, make_entry};
use std::alloc::{AllocError, Global};
use std::marker::Model;
use std::ops::Range;

/// Appends an entry to `entries`, and its path to `storage`.
///
/// Memory for both is allocated first, so both are unchanged after an error. An error means that an allocation failed,
/// or that the path doesn't fit a [`PathRange`].
pub fn append(
    entries: &mut Vec<Entry>,
    storage: &mut PathStorage,
    entry: Pathless,
    path: &[u8],
) -> Result<(), AllocError>
    ensures appended { OnOk result (Appends storage.old.items entries.old.items
        (with_path path.now entry) storage.new.items entries.new.items) }
    ensures err_entries { OnErr result (entries.new.items ≡ entries.old.items) }
    ensures err_storage { OnErr result (storage.new.items ≡ storage.old.items) }
{
    let Some(range) = PathRange::new(storage.len(), path.len()) else {
        return Err(AllocError);
    };
    storage.reserve(path.len())?;
    entries.reserve(1)?;
    storage.extend_from_slice(path)?;
    entries.push_reserved(make_entry(entry, range));
    Ok(())
}

/// Appends a copy of this range of the storage to the storage. After an error, which means that an allocation failed,
/// the storage is unchanged.
fn copy_to_end(storage: &mut PathStorage, range: Range<usize>) -> Result<(), AllocError>
    requires forward { range.start ≤ range.end }
    requires inside { range.end ≤ length storage.old.items }
    ensures copied { OnOk result (storage.new.items
        ≡ storage.old.items ++ slice_range storage.old.items range.start range.end) }
    ensures err { OnErr result (storage.new.items ≡ storage.old.items) }
    ensures capacity { vec_capacity storage.old ≤ vec_capacity storage.new }
{
    let len = storage.len();
    let Some(end) = len.checked_add(range.end - range.start) else {
        return Err(AllocError);
    };
    storage.resize(end, 0)?;
    let (front, back) = storage.as_mut_slice().split_at_mut(len);
    back.copy_from_slice(&front[range.start..range.end]);
    Ok(())
}

/// Appends an entry whose path is the range `shared` of the storage, followed by `path`. The path is appended to the
/// storage.
///
/// Memory for both is allocated first, so both are unchanged after an error. An error means that an allocation failed,
/// or that the path doesn't fit a [`PathRange`].
#[inline(always)]
fn append_after(
    entries: &mut Vec<Entry>,
    storage: &mut PathStorage,
    entry: Pathless,
    shared: Range<usize>,
    path: &[u8],
) -> Result<(), AllocError>
    requires forward { shared.start ≤ shared.end }
    requires inside { shared.end ≤ length storage.old.items }
    ensures appended { OnOk result (Appends storage.old.items entries.old.items
        (with_path (slice_range storage.old.items shared.start shared.end ++ path.now) entry)
        storage.new.items entries.new.items) }
    ensures err_entries { OnErr result (entries.new.items ≡ entries.old.items) }
    ensures err_storage { OnErr result (storage.new.items ≡ storage.old.items) }
{
    let len = shared.end - shared.start + path.len();
    let Some(range) = PathRange::new(storage.len(), len) else {
        return Err(AllocError);
    };
    storage.reserve(len)?;
    entries.reserve(1)?;
    copy_to_end(storage, shared)?;
    storage.extend_from_slice(path)?;
    entries.push_reserved(make_entry(entry, range));
    Ok(())
}

/// A list of entries that owns the storage of their paths. Use it to collect the entries of an index one by one, each
/// with its path.
#[derive(Drop)]
pub struct EntryList {
    entries: Vec<Entry>,
    storage: PathStorage,
}

impl Model for EntryList {
    ghost Value = { Held };

    ghost view = { λ l. record {
      records = records_in l.storage.items l.entries.items;
      storage = l.storage.items;
    } };

    ghost invariant = { λ l. All (IsPlaced (length l.storage.items)) l.entries.items };
}

impl EntryList {
    /// Returns a list without entries.
    pub fn new(alloc: Global) -> EntryList
        ensures { result ≡ record { records = []; storage = [] } }
    {
        EntryList {
            entries: Vec::new(alloc),
            storage: Vec::new(alloc),
        }
    }

    /// Returns a list without entries. It has room for `count` entries, and for `paths` bytes of paths. An error means
    /// that an allocation failed.
    pub fn with_capacity(alloc: Global, count: usize, paths: usize) -> Result<EntryList, AllocError>
        ensures { IfOk result (λ l. l ≡ record { records = []; storage = [] }) }
    {
        Ok(EntryList {
            entries: Vec::with_capacity(alloc, count)?,
            storage: Vec::with_capacity(alloc, paths)?,
        })
    }

    /// Returns the number of entries.
    pub fn len(&self) -> usize
        ensures { result ≡ length self.now.records }
    {
        self.entries.len()
    }

    /// Returns the entries with their paths, borrowed.
    pub fn as_slice(&self) -> EntrySlice<'_>
        ensures { result ≡ self.now.records }
    {
        EntrySlice::new(&self.entries, &self.storage)
    }

    /// Appends an entry to the list, and its path to the storage.
    ///
    /// Memory for both is allocated first, so the list is unchanged after an error. An error means that an allocation
    /// failed, or that the path doesn't fit a [`PathRange`].
    pub fn push(&mut self, entry: Pathless, path: &[u8]) -> Result<(), AllocError>
        ensures pushed { OnOk result (self.new ≡ pushed self.old (with_path path.now entry)) }
        ensures err { OnErr result (self.new ≡ self.old) }
    {
        append(&mut self.entries, &mut self.storage, entry, path)?;
        Ok(())
    }

    /// Returns the index in the storage at which the last entry's path begins, or 0 if there are no entries.
    fn last_start(&self) -> usize
        ensures { (shared : ℕ) → shared ≤ length (unwrap_or (last_path None self.now.records) [])
            → IsFrontOfLast self.now shared result }
    {
        match self.entries.last() {
            Some(last) => last.path.start(),
            None => 0,
        }
    }

    /// Appends an entry whose path is the first `shared` bytes of the last entry's path, followed by `path`.
    ///
    /// Memory for the entry and its path is allocated first, so the list is unchanged after an error. An error means
    /// that an allocation failed, or that the path doesn't fit a [`PathRange`].
    #[inline(always)]
    pub fn push_after(
        &mut self,
        entry: Pathless,
        shared: usize,
        path: &[u8],
    ) -> Result<(), AllocError>
        requires { shared ≤ length (unwrap_or (last_path None self.old.records) []) }
        ensures pushed { OnOk result (self.new ≡ pushed self.old (with_path
            (take shared (unwrap_or (last_path None self.old.records) []) ++ path.now) entry)) }
        ensures err { OnErr result (self.new ≡ self.old) }
    {
        let previous = self.last_start();
        let front = previous..previous + shared;
        append_after(&mut self.entries, &mut self.storage, entry, front, path)?;
        Ok(())
    }

    /// Returns the entries, and the storage of their paths.
    pub fn into_parts(self) -> (Vec<Entry>, PathStorage)
        ensures records { records_in result.1.items result.0.items ≡ self.records }
        ensures storage { result.1.items ≡ self.storage }
        ensures placed { All (IsPlaced (length result.1.items)) result.0.items }
    {
        (self.entries, self.storage)
    }
}
