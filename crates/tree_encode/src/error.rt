//! Errors of writing entries as trees.

ghost use Rattle.std.specs.Prelude.{◌≡◌};
ghost use Rattle.tree_encode.specs.declared.error.Error.TheVariants.{Memory};

use bitflags::Flags as _;
use bstr::BString;
use entry_fields::entry::Mode;
use std::alloc::{AllocError, AllocFailed};
use thiserror::Error;

/// The error in the names of a path.
#[derive(Clone, Copy, Debug, PartialEq, Eq, Error)]
pub enum NameFault {
    /// A name is empty.
    #[error("is empty or has an empty name")]
    Empty,
    /// A name contains a NUL.
    #[error("has a NUL")]
    Nul,
    /// The caller's check rejects a name, with this number.
    #[error("has a name that is refused by the check's number {0}")]
    Refused(u32),
    /// The path is that of a sparse directory, but has no slash at the end.
    #[error("stands for a directory, but has no slash at the end")]
    NoSlash,
    /// More than 2048 directories are above the path.
    #[error("lies below more than 2048 directories")]
    TooDeep,
}

/// Why entries aren't written as trees.
#[derive(Debug, Drop, Error)]
pub enum Error {
    /// There are more entries than a cached tree can count.
    #[error("there are more than 2147483647 entries")]
    TooManyEntries,
    /// An entry is unmerged.
    #[error("the path {path:?} isn't merged")]
    Unmerged {
        /// The path.
        path: BString,
    },
    /// An entry has a mode that no tree has.
    #[error("the entry at {path:?} has the mode {:o}, which no tree has", mode.bits())]
    Mode {
        /// The entry's path.
        path: BString,
        /// The entry's mode.
        mode: Mode,
    },
    /// The names of a path can't be in a tree.
    #[error("the path {path:?} {fault}")]
    Path {
        /// The path.
        path: BString,
        /// The error in its names.
        fault: NameFault,
    },
    /// An entry has an id of another hash algorithm than the index.
    #[error("the entry at {path:?} has an id of another kind than the index")]
    OtherKind {
        /// The entry's path.
        path: BString,
    },
    /// An entry has the null id, which names no object.
    #[error("the entry at {path:?} has the null id")]
    NullId {
        /// The entry's path.
        path: BString,
    },
    /// A path is that of a file or of a sparse directory, and another path is below it.
    #[error("both {file:?} and {below:?} are in the index")]
    Both {
        /// The path.
        file: BString,
        /// The path below it.
        below: BString,
    },
    /// The sink rejected a tree object.
    #[error("a tree wasn't stored: the sink's fault number {fault}")]
    Sink {
        /// The sink's own number of the error.
        fault: u32,
    },
    /// An allocation failed.
    #[error("no memory is left to write the trees")]
    Memory,
}

impl From<AllocError> for Error {
    ghost from_gives = { λ _ error. error ≡ Memory };

    fn from(_e: AllocError) -> Error {
        Error::Memory
    }
}

impl<T: Drop> From<AllocFailed<T>> for Error {
    ghost from_gives = { λ _ error. error ≡ Memory };

    fn from(_e: AllocFailed<T>) -> Error {
        Error::Memory
    }
}
