//! Checks whether git works with all entries of an index, and whether no two entries conflict.

ghost use Rattle.std.specs.Prelude.{◌≡◌, ◌<◌, ◌↔◌, IfErr, IfOk, IsOk, None, OnOk, Some, length, position, true};
ghost use Rattle.std.specs.List.{HoldsAt};
ghost use Rattle.gix_index.specs.Order.{IsOrderedByPath};
ghost use Rattle.gix_index.specs.State.{contents, records};
ghost use Rattle.view_salvage.specs.Accepted.{record_fault};
ghost use Rattle.view_strict.specs.Beside.{has_sides_beside, is_beside};
ghost use Rattle.view_strict.specs.Strict.{IsSoundIn, IsStrict, RecordCause, UnsoundCause};
ghost use Rattle.view_strict.specs.declared.verify.Error.TheVariants.{Memory};

use crate::beside::{first_beside, has_sides_beside};
use entry_list::slice::EntrySlice;
use gix_index::hash::Kind;
use gix_index::{BString, State};
use std::alloc::{AllocError, Global};
use thiserror::Error;
use view_salvage::{EntryFault, entry_fault};

/// Why git doesn't work with the entries of an index.
#[derive(Debug, Drop, Error)]
pub enum Error {
    /// Git doesn't work with an entry.
    #[error("entry {index}, {path:?}: {fault}")]
    Entry {
        /// The index of the entry, counted from 0.
        index: usize,
        /// The path of the entry.
        path: BString,
        /// Why git doesn't work with it.
        fault: EntryFault,
    },
    /// An entry is merged, and its path also has sides of a conflict.
    #[error("entry {index}, {path:?}, is merged, but sides of a conflict are in the index too")]
    Sides {
        /// The index of the merged entry, counted from 0.
        index: usize,
        /// The path of the merged entry.
        path: BString,
    },
    /// An entry is below another entry of its stage that is a file, or in a sparse directory.
    #[error("entry {index}, {path:?}, is a file or a whole directory, but {other:?} is in the index too")]
    Beside {
        /// The index of the file or the sparse directory, counted from 0.
        index: usize,
        /// The path of the file or the sparse directory.
        path: BString,
        /// The path of the first entry that is below it.
        other: BString,
    },
    /// An allocation failed when the entry was to be named.
    #[error("no memory is left to name the entry that git doesn't work with")]
    Memory,
}

impl From<AllocError> for Error {
    ghost from_gives = { λ _ error. error ≡ Memory };

    fn from(_e: AllocError) -> Error {
        Error::Memory
    }
}

/// Returns the error that names the entry at an index and why git doesn't work with it.
fn entry_error(
    alloc: Global,
    entries: &EntrySlice<'_>,
    index: usize,
    fault: EntryFault,
) -> Result<Error, AllocError>
    requires { index < length entries.now }
    ensures { IfOk result (λ e. HoldsAt (λ r. (kind : Kind) → record_fault kind r ≡ Some fault
        → RecordCause kind entries.now index r e) entries.now index) }
{
    let path = BString::from_slice(alloc, entries.path(index))?;
    Ok(Error::Entry { index, path, fault })
}

/// Returns the error that names the merged entry at an index whose path also has sides of a conflict.
fn conflicting(alloc: Global, entries: &EntrySlice<'_>, index: usize) -> Result<Error, AllocError>
    requires { index < length entries.now }
    ensures { IfOk result (λ e. HoldsAt (λ r. (kind : Kind) → record_fault kind r ≡ None
        → has_sides_beside r entries.now ≡ true
        → RecordCause kind entries.now index r e) entries.now index) }
{
    let path = BString::from_slice(alloc, entries.path(index))?;
    Ok(Error::Sides { index, path })
}

/// Returns the error that names the entry at an index, and another that is below it.
fn beside(
    alloc: Global,
    entries: &EntrySlice<'_>,
    index: usize,
    other: usize,
) -> Result<Error, AllocError>
    requires within { index < length entries.now }
    requires other { other < length entries.now }
    ensures { IfOk result (λ e. HoldsAt (λ r. (kind : Kind) → record_fault kind r ≡ None
        → position (is_beside r) entries.now ≡ Some other
        → RecordCause kind entries.now index r e) entries.now index) }
{
    let path = BString::from_slice(alloc, entries.path(index))?;
    let other = BString::from_slice(alloc, entries.path(other))?;
    Ok(Error::Beside { index, path, other })
}

/// Fails if git doesn't work with the entry at index `place`, or if another entry conflicts with it.
fn check_at(alloc: Global, kind: Kind, entries: &EntrySlice<'_>, place: usize) -> Result<(), Error>
    requires within { place < length entries.now }
    requires ordered { IsOrderedByPath entries.now }
    ensures sound { OnOk result (HoldsAt (IsSoundIn kind entries.now) entries.now place) }
    ensures fault { IfErr result
        (λ e. HoldsAt (λ r. RecordCause kind entries.now place r e) entries.now place) }
{
    if let Err(fault) = entry_fault(kind, entries.entry(place), entries.path(place)) {
        return Err(entry_error(alloc, entries, place, fault)?);
    }
    if has_sides_beside(entries, place) {
        return Err(conflicting(alloc, entries, place)?);
    }
    if let Some(other) = first_beside(entries, place) {
        return Err(beside(alloc, entries, place, other)?);
    }
    Ok(())
}

/// Checks that git works with each entry, as [`entry_fault`] reports it, and that no two entries conflict:
///
/// - No entry is below another entry of its stage that is a file.
/// - No entry is in a sparse directory (gitformat-index, "Sparse Directory Entries").
/// - No merged entry has sides of a conflict at its path.
///
/// The entries must be in order by path. It takes two searches for each entry. Apart from these, it examines an entry
/// at most four times.
///
/// # Errors
///
/// The error names the first entry for which a check fails, and the first entry that conflicts with it. Memory is
/// allocated only for these paths. [`Error::Memory`]: that allocation failed.
pub fn verify_strict(alloc: Global, state: &State) -> Result<(), Error>
    requires { IsOrderedByPath (records state.now) }
    ensures ok { IsOk result ↔ IsStrict (contents state.now).kind (records state.now) }
    ensures fault { IfErr result (UnsoundCause (contents state.now).kind (records state.now)) }
{
    let entries = EntrySlice::new(state.entries(), state.path_backing());
    let kind = state.object_hash();
    for place in 0..entries.len() {
        check_at(alloc, kind, &entries, place)?;
    }
    Ok(())
}
