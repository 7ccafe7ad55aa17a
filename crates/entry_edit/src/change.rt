//! Changes of an index that are made together, and their errors.

ghost use Rattle.std.specs.Prelude.{◌≡◌, ◌+◌, ◌<◌, ◌^◌, IfOk, OnOk, length};
ghost use Rattle.entry_edit.specs.Changes.{added_len, change_fault, first_rejection, room_fault, change_path};
ghost use Rattle.entry_edit.specs.Refusals.{AnswersFault};
ghost use Rattle.entry_edit.specs.Wholes.{AnswersAmong};
ghost use Rattle.entry_edit.specs.declared.change.ApplyError.TheVariants.{Memory};

use crate::error::Error;
use crate::refusals::check_entry;
use crate::wholes::first_in_whole;
use entry_list::Pathless;
use entry_list::slice::EntrySlice;
use index_parts::check::ComponentCheck;
use index_parts::hash::Kind;
use std::alloc::AllocError;
use thiserror::Error;

/// A change of an index. Its path is borrowed, so that paths can be in one buffer of input.
#[derive(Clone, Copy)]
pub enum Change<'a> {
    /// An entry is staged, as by [`stage`](crate::stage::stage).
    Stage {
        /// The entry without its path.
        entry: Pathless,
        /// The path.
        path: &'a [u8],
    },
    /// A path is removed, as by [`unstage`](crate::unstage::unstage).
    Unstage {
        /// The path.
        path: &'a [u8],
    },
}

impl<'a> Change<'a> {
    /// Returns the path that is staged or removed.
    pub fn path(&self) -> &'a [u8]
        ensures { result.now ≡ change_path self.now }
    {
        match *self {
            Change::Stage { path, .. } => path,
            Change::Unstage { path } => path,
        }
    }
}

/// Why changes aren't made. The entries and the storage of their paths are unchanged.
#[derive(Debug, Drop, Error)]
pub enum ApplyError {
    /// A change is rejected. All changes before it are accepted.
    #[error("change {at} is refused: {cause}")]
    Refused {
        /// The change's index, counted from 0.
        at: usize,
        /// The error of the change.
        cause: Error,
    },
    /// There is no memory for the changes.
    #[error("no memory is left for the changes")]
    Memory,
}

impl From<AllocError> for ApplyError {
    ghost from_gives = { λ _ error. error ≡ Memory };

    fn from(_e: AllocError) -> ApplyError {
        ApplyError::Memory
    }
}

/// The limit of the number of bytes in a storage of paths before the last path.
const STORAGE_LIMIT: usize = 1 << 48;

/// The limit of the number of bytes in a path.
const PATH_LIMIT: usize = 1 << 32;

/// Returns Ok if a path fits in the storage after `len` bytes.
fn check_room(len: usize, path: &[u8]) -> Result<(), Error>
    ensures none { AnswersFault (room_fault len path.now) result }
    ensures fits { OnOk result (len + length path.now < 2 ^ 49) }
{
    if len < STORAGE_LIMIT && path.len() < PATH_LIMIT {
        return Ok(());
    }
    Err(Error::PathTooLong { len: path.len() })
}

/// Returns the length that the storage of paths may have after a change, if the change by itself is accepted. The index
/// has ids of the hash algorithm `kind`, and the storage has `len` bytes.
fn check_change<C: ComponentCheck>(
    check: &C,
    kind: Kind,
    len: usize,
    change: &Change<'_>,
) -> Result<usize, Error>
    ensures fault { AnswersFault (change_fault (C.refusal check.now) kind len change.now) result }
    ensures grown { IfOk result (λ grown. grown ≡ len + added_len change.now) }
{
    match change {
        Change::Stage { entry, path } => {
            check_entry(check, kind, *entry, path)?;
            check_room(len, path)?;
            Ok(len + path.len())
        }
        Change::Unstage { .. } => Ok(len),
    }
}

/// Returns Ok if each change by itself is accepted, made one after another. The index has ids of the hash algorithm
/// `kind`, and its storage of paths has `len` bytes. The error has the first change that is rejected, with its index.
fn check_each<C: ComponentCheck>(
    check: &C,
    kind: Kind,
    len: usize,
    changes: &[Change<'_>],
) -> Result<(), ApplyError>
    ensures { AnswersFault (first_rejection (C.refusal check.now) kind len changes.now) result }
{
    let mut grown = len;
    for (at, change) in changes.iter().enumerate() {
        match check_change(check, kind, grown, change) {
            Ok(more) => grown = more,
            Err(cause) => return Err(ApplyError::Refused { at, cause }),
        }
    }
    Ok(())
}

/// Returns Ok if all changes are accepted for these entries, made one after another. The index has ids of the hash
/// algorithm `kind`.
///
/// The error has the first change that is rejected by itself, with its index. If there is none, it has the first whose
/// path is in a complete directory of a sparse index. The latter is guaranteed if the entries strictly increase.
pub fn check_changes<C: ComponentCheck>(
    check: &C,
    kind: Kind,
    entries: &EntrySlice<'_>,
    len: usize,
    changes: &[Change<'_>],
) -> Result<(), ApplyError>
    ensures { AnswersAmong (first_rejection (C.refusal check.now) kind len changes.now) changes.now
        entries.now result }
{
    check_each(check, kind, len, changes)?;
    match first_in_whole(entries, changes) {
        Some(at) => Err(ApplyError::Refused {
            at,
            cause: Error::InWholeDirectory,
        }),
        None => Ok(()),
    }
}
