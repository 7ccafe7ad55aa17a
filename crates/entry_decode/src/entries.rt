//! The entries after the header.

ghost use Rattle.std.specs.Prelude.{◌≡◌, ◌≤◌, ◌++◌, ℕ, List, length, None, IfOk, IfErr, OnOk, All};
ghost use Rattle.std.specs.Option.{option_map};
ghost use Rattle.index_parts.specs.Id.{id_kind};
ghost use Rattle.entry_list.specs.Entries.{AreEntries, last_path};
ghost use Rattle.entry_decode.specs.EntryFaults.{EndsEarly, LacksSome, Continues};
ghost use Rattle.entry_list.specs.Record.{has_directory};
ghost use Rattle.entry_decode.specs.declared.entries.Error.TheVariants.{Memory};

use crate::reader::EntryReader;
use entry_list::Version;
use entry_list::list::EntryList;
use index_parts::hash::Kind;
use std::alloc::{AllocError, AllocFailed, Global};
use thiserror::Error;

/// Why not all entries were read.
#[derive(Debug, Drop, Error)]
pub enum Error {
    /// The bytes at the position of this entry begin with no entry.
    #[error("entry {index} of the index, counted from 0, can't be read")]
    NoEntry {
        /// The entry's index, from 0.
        index: u32,
    },
    /// A memory allocation failed.
    #[error("out of memory while reading entries")]
    Memory,
}

impl From<AllocError> for Error {
    ghost from_gives = { λ _ e. e ≡ Memory };

    fn from(_e: AllocError) -> Error {
        Error::Memory
    }
}

impl<T: Drop> From<AllocFailed<T>> for Error {
    ghost from_gives = { λ _ e. e ≡ Memory };

    fn from(_e: AllocFailed<T>) -> Error {
        Error::Memory
    }
}

/// The first entries of a file, as many as were read.
#[derive(Drop)]
pub struct FirstEntries {
    /// The entries, with their paths one after another.
    pub list: EntryList,
    /// Whether one of them is for a complete directory.
    pub sparse: bool,
}

/// Returns the path of the last entry, or None if there is no entry.
fn last_path(list: &EntryList) -> Option<&[u8]>
    ensures { option_map (λ path. path.now) result ≡ last_path None list.now.records }
{
    let entries = list.as_slice();
    let len = entries.len();
    if len == 0 {
        return None;
    }
    Some(entries.path(len - 1))
}

/// Reads the complete entries at the start of `bytes`, and appends them to `first`, until it has `count` entries.
/// Returns the bytes after them. Only their paths are copied, into one storage.
pub fn entries_in<'a>(
    version: Version,
    kind: Kind,
    count: u32,
    first: &mut FirstEntries,
    bytes: &'a [u8],
) -> Result<&'a [u8], AllocError>
    requires ids { All (λ r. id_kind r.id ≡ kind) first.old.list.records }
    requires sparse { first.old.sparse ≡ has_directory first.old.list.records }
    requires count { length first.old.list.records ≤ count }
    ensures read { IfOk result
        (λ rest. Continues version kind first.old bytes.now first.new rest.now) }
    ensures end { IfOk result (λ rest. (taken : List ℕ) × (bytes.now ≡ taken ++ rest.now)) }
    ensures ids { OnOk result (All (λ r. id_kind r.id ≡ kind) first.new.list.records) }
    ensures sparse { OnOk result (first.new.sparse ≡ has_directory first.new.list.records) }
    ensures count { OnOk result (length first.new.list.records ≤ count) }
    ensures none { IfOk result (λ rest. EndsEarly version kind count first.new rest.now) }
{
    let mut reader = EntryReader::behind(version, kind, last_path(&first.list), bytes);
    'entries: for index in first.list.len()..count as usize {
        let Some(lent) = reader.next() else {
            return Ok(reader.rest());
        };
        first.list.push_after(lent.entry, lent.shared, lent.path)?;
        first.sparse |= lent.entry.mode.is_sparse();
    }
    Ok(reader.rest())
}

/// Entries with their paths, and the bytes after them.
#[derive(Drop)]
pub struct Read<'a> {
    /// The entries, with their paths one after another.
    pub list: EntryList,
    /// Whether an entry is for a complete directory.
    pub sparse: bool,
    /// The bytes after them.
    pub rest: &'a [u8],
}

/// Reads `count` entries from the start of `bytes`. It allocates memory for paths of `paths` bytes at the start.
///
/// [`Error::NoEntry`] has the index of the first entry that is missing. [`Error::Memory`] is returned if an allocation
/// failed.
pub fn read_entries(
    alloc: Global,
    version: Version,
    kind: Kind,
    count: u32,
    paths: usize,
    bytes: &[u8],
) -> Result<Read<'_>, Error>
    ensures read { IfOk result
        (λ x. AreEntries version kind None bytes.now x.list.records x.rest.now) }
    ensures count { IfOk result (λ x. length x.list.records ≡ count) }
    ensures ids { IfOk result (λ x. All (λ r. id_kind r.id ≡ kind) x.list.records) }
    ensures sparse { IfOk result (λ x. x.sparse ≡ has_directory x.list.records) }
    ensures fault { IfErr result (LacksSome version kind count bytes.now) }
{
    let list = EntryList::with_capacity(alloc, count as usize, paths)?;
    let mut first = FirstEntries {
        list,
        sparse: false,
    };
    let rest = entries_in(version, kind, count, &mut first, bytes)?;
    let FirstEntries { list, sparse } = first;
    let len = list.len();
    if len < count as usize {
        return Err(Error::NoEntry { index: len as u32 });
    }
    Ok(Read { list, sparse, rest })
}
