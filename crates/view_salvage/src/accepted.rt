//! Checks whether git works with an entry.

ghost use Rattle.std.specs.Prelude.{◌≡◌};
ghost use Rattle.entry_edit.specs.Refusals.{AnswersFault};
ghost use Rattle.view_salvage.specs.Accepted.{entry_fault, parts_of, staging_fault};

use entry_info::names::PathNames;
use gix_index::change::{ApplyError, Change, check_changes};
use gix_index::decode::entry::{EntrySlice, Pathless};
use gix_index::entry::Mode;
use gix_index::hash::Kind;
use gix_index::{ChangeError, Entry};
use thiserror::Error;

/// Why git doesn't work with an entry.
#[derive(Debug, Drop, Error)]
pub enum EntryFault {
    /// It is a sparse directory, but its path doesn't end with a slash.
    #[error("the entry stands for a whole directory, but its path has no slash at the end")]
    NoSlash,
    /// It can't be staged at its path. The path of a sparse directory is checked like that of a file, without its last
    /// slash.
    #[error("{0}")]
    Refused(ChangeError),
}

/// Checks that the entry can be staged at the path.
fn check_staging(kind: Kind, entry: Pathless, path: &[u8]) -> Result<(), EntryFault>
    ensures { AnswersFault (staging_fault kind entry path.now) result }
{
    let none = EntrySlice::new(&[], &[]);
    match check_changes(&PathNames, kind, &none, 0, &[Change::Stage { entry, path }]) {
        Ok(()) => Ok(()),
        Err(ApplyError::Refused { cause, .. }) => Err(EntryFault::Refused(cause)),
        Err(ApplyError::Memory) => unreachable!(),
    }
}

/// Returns the parts of an entry except its path, with this mode.
fn with_mode(entry: &Entry, mode: Mode) -> Pathless
    ensures { result ≡ record (parts_of entry.now) { mode = mode } }
{
    Pathless {
        stat: entry.stat,
        id: entry.id,
        flags: entry.flags,
        mode,
    }
}

/// Checks that git works with an entry of this path in an index with this hash algorithm:
///
/// - The mode is one of git's. The id has the length of the hash algorithm and isn't null.
/// - The path isn't empty and has no NUL. Git allows each name in it, as described in [`PathNames`].
/// - The path of a sparse directory ends with a slash (gitformat-index, "Sparse Directory Entries").
///
/// # Errors
///
/// The error is the first of these checks that fails.
#[tactic(auto, unfolding(crate::specs::Accepted::entry_fault))]
pub fn entry_fault(kind: Kind, entry: &Entry, path: &[u8]) -> Result<(), EntryFault>
    ensures { AnswersFault (entry_fault kind (parts_of entry.now) path.now) result }
{
    if !entry.mode.is_sparse() {
        return check_staging(kind, with_mode(entry, entry.mode), path);
    }
    match path.split_last() {
        Some((b'/', front)) => check_staging(kind, with_mode(entry, Mode::FILE), front),
        _ => Err(EntryFault::NoSlash),
    }
}
