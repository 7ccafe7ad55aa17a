//! Merges the entries of a split index into those of its shared index (gitformat-index, "Split index").

ghost use Rattle.std.specs.Prelude.{◌≡◌, ◌<◌, [], ◌∷◌, ℕ, List, Some, None, length, filter, not, IfErr, OnOk};
ghost use Rattle.entry_list.specs.EntryImage.{is_removed};
ghost use Rattle.ext_split.specs.declared.merge.Error.TheVariants.{Memory};
ghost use Rattle.ext_split.specs.Merge.{replaced_record_fault};
ghost use Rattle.ext_split.specs.MergeCalls.{Joins, KeepsOthers, MarksAt, MarksBy, Merges, ReplacesAt};
ghost use Rattle.ext_split.specs.MergeCalls.{DeleteCause, StayPlaced, TakesAt, TakesBy, ReplaceFaultText};
ghost use Rattle.ext_split.specs.MergeSteps.{merge_error};
ghost use Rattle.entry_list.specs.Record.{record_in, records_in};

use crate::link::decode;
use bitflags::Flags as _;
use entry_fields::entry::Flags;
use entry_list::list::append;
use entry_list::sort::sort;
use entry_list::{Entry, Pathless};
use ext_bitmap::ewah;
use std::alloc::AllocError;
use thiserror::Error;

/// Why merging entries failed.
#[derive(Debug, Drop, Error)]
pub enum Error {
    /// A bitmap, or an entry at one of its positions, is invalid. The text describes the error.
    #[error("{0}")]
    Corrupt(&'static str),
    /// An allocation failed.
    #[error("out of memory while merging entries")]
    Memory,
}

impl From<AllocError> for Error {
    ghost from_gives = { λ _e error. error ≡ Memory };

    fn from(_e: AllocError) -> Error {
        Error::Memory
    }
}

impl From<Error> for decode::Error {
    ghost from_gives = { λ e error. error ≡ merge_error e };

    fn from(e: Error) -> decode::Error {
        match e {
            Error::Corrupt(text) => decode::Error::Corrupt(text),
            Error::Memory => decode::Error::Memory,
        }
    }
}

/// Returns the error of replacing an entry if no split entry is left.
fn fault_alone(entry: &Entry) -> &'static str
    ensures { (storage : List ℕ)
        → replaced_record_fault (record_in storage entry.now) None ≡ Some result.now }
{
    if entry.is_removed() {
        return "entry is marked as both replace and delete";
    }
    "replace bitmap length exceeds split index length - \
    more entries in bitmap than found in split index"
}

/// Returns the error of replacing an entry by another, if there is one.
fn fault_between(
    entry: &Entry,
    storage: &[u8],
    by: &Entry,
    split_storage: &[u8],
) -> Option<&'static str>
    ensures { ReplaceFaultText result storage.now entry.now split_storage.now by.now }
{
    if entry.is_removed() {
        return Some("entry is marked as both replace and delete");
    }
    if by.path_in(split_storage).len() != 0 {
        return Some("paths in split index entries that are for replacement should be empty");
    }
    if entry.path_in(storage).len() == 0 {
        return Some("paths in shared index entries that are replaced should not be empty");
    }
    None
}

/// Copies everything but the path of `by` into the shared entry at the index `place`.
fn take_at(shared: &mut Vec<Entry>, place: usize, by: &Entry)
    requires { place < length shared.old.items }
    ensures replaced { ReplacesAt place by.now shared.old.items shared.new.items }
    ensures placed { StayPlaced shared.old.items shared.new.items }
{
    let entry = &mut shared[place];
    entry.stat = by.stat;
    entry.id = by.id;
    entry.flags = by.flags;
    entry.mode = by.mode;
}

/// Replaces the shared entry at the index `place` by the split entry at `taken`, if both exist.
fn replace_at(
    shared: &mut Vec<Entry>,
    storage: &[u8],
    split: &[Entry],
    split_storage: &[u8],
    taken: usize,
    place: u64,
) -> Result<(), Error>
    ensures { TakesAt storage.now shared.old shared.new split_storage.now split.now taken place
        result }
{
    if place >= shared.len() as u64 {
        return Err(Error::Corrupt(
            "replace bitmap length exceeds shared index length - \
            more entries in bitmap than found in shared index",
        ));
    }
    let at = place as usize;
    if taken >= split.len() {
        return Err(Error::Corrupt(fault_alone(&shared[at])));
    }
    if let Some(text) = fault_between(&shared[at], storage, &split[taken], split_storage) {
        return Err(Error::Corrupt(text));
    }
    take_at(shared, at, &split[taken]);
    Ok(())
}

/// Replaces shared entries by the first split ones, and returns the number of split entries that it used.
fn replace_entries(
    shared: &mut Vec<Entry>,
    storage: &[u8],
    split: &[Entry],
    split_storage: &[u8],
    replace: &ewah::Vec,
) -> Result<usize, Error>
    ensures { TakesBy replace.now storage.now shared.old shared.new split_storage.now split.now
        result }
{
    let mut taken = 0;
    let mut positions = replace.positions();
    while let Some(position) = positions.next() {
        let Ok(place) = position else {
            return Err(Error::Corrupt("replace bitmap is malformed"));
        };
        replace_at(shared, storage, split, split_storage, taken, place)?;
        taken += 1;
    }
    Ok(taken)
}

/// Appends an entry to `entries`, and its path to `storage`.
fn append_entry(
    entries: &mut Vec<Entry>,
    storage: &mut Vec<u8>,
    entry: &Entry,
    split_storage: &[u8],
) -> Result<(), AllocError>
    ensures { Joins entries.old entries.new storage.old storage.new split_storage.now
        (entry.now ∷ []) result }
{
    let path = entry.path_in(split_storage);
    let pathless = Pathless {
        stat: entry.stat,
        id: entry.id,
        flags: entry.flags,
        mode: entry.mode,
    };
    append(entries, storage, pathless, path)?;
    Ok(())
}

/// Appends the split entries that replace none to `entries`, and their paths to `storage`.
fn append_entries(
    entries: &mut Vec<Entry>,
    storage: &mut Vec<u8>,
    split: &[Entry],
    split_storage: &[u8],
) -> Result<(), AllocError>
    ensures { Joins entries.old entries.new storage.old storage.new split_storage.now split.now
        result }
{
    for entry in split {
        append_entry(entries, storage, entry, split_storage)?;
    }
    Ok(())
}

/// Marks the entry at the index `place` for removal.
fn mark_at(entries: &mut Vec<Entry>, place: usize)
    requires { place < length entries.old.items }
    ensures { MarksAt place entries.old.items entries.new.items }
{
    let entry = &mut entries[place];
    entry.flags.insert(Flags::REMOVE);
}

/// Marks the entries at the positions of the bitmap for removal.
fn mark_deleted(entries: &mut Vec<Entry>, delete: &ewah::Vec) -> Result<(), Error>
    ensures marked { OnOk result (MarksBy delete.now entries.old.items entries.new.items) }
    ensures fault { IfErr result (DeleteCause delete.now entries.old.items) }
{
    let mut positions = delete.positions();
    while let Some(position) = positions.next() {
        let Ok(place) = position else {
            return Err(Error::Corrupt("delete bitmap is malformed"));
        };
        if place >= entries.len() as u64 {
            return Err(Error::Corrupt(
                "delete bitmap length exceeds shared index length - \
                more entries in bitmap than found in shared index",
            ));
        }
        mark_at(entries, place as usize);
    }
    Ok(())
}

/// Removes the entries that are marked.
fn drop_removed(entries: &mut Vec<Entry>)
    ensures { entries.new.items ≡ filter (λ e. not (is_removed e.flags.0)) entries.old.items }
{
    entries.retain(|entry| !entry.is_removed());
}

/// Removes the entries at the positions of the bitmap, and those that are marked `REMOVE`.
fn keep_others(entries: &mut Vec<Entry>, storage: &[u8], delete: &ewah::Vec) -> Result<(), Error>
    ensures retained { OnOk result
        (KeepsOthers delete.now storage.now entries.old entries.new) }
    ensures placed { OnOk result (StayPlaced entries.old.items entries.new.items) }
    ensures fault { IfErr result
        (DeleteCause delete.now (records_in storage.now entries.old.items)) }
{
    mark_deleted(entries, delete)?;
    drop_removed(entries);
    Ok(())
}

/// Merges the entries of a split index into `entries`, which are those of its shared index.
///
/// `storage` and `split_storage` contain the paths of both. The steps are:
///
/// 1. The entry at each position of `replace`, in turn, takes everything but the path from the next split entry.
/// 2. The other split entries are appended, with their paths.
/// 3. The entries at the positions of `delete`, counted over this longer list, are removed. So are those that are
///    marked `REMOVE`.
/// 4. The rest is sorted by path and stage. Entries that are equal in both keep their order.
///
/// # Errors
///
/// [`Error::Corrupt`] names the first error. The positions of a bitmap are checked one by one, and a malformed bitmap
/// is reported after its valid positions. [`Error::Memory`] occurs if memory for the appended entries or for the sort
/// couldn't be allocated.
///
/// After an error `entries` may have any value and can't be used any more.
pub fn merge(
    entries: &mut Vec<Entry>,
    storage: &mut Vec<u8>,
    split: &[Entry],
    split_storage: &[u8],
    delete: &ewah::Vec,
    replace: &ewah::Vec,
) -> Result<(), Error>
    ensures { Merges delete.now replace.now entries.old storage.old split.now split_storage.now
        entries.new storage.new result }
{
    let taken = replace_entries(entries, storage, split, split_storage, replace)?;
    let (_, others) = split.split_at(taken);
    append_entries(entries, storage, others, split_storage)?;
    keep_others(entries, storage, delete)?;
    sort(entries, storage)?;
    Ok(())
}
