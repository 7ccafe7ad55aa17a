//! Why an entry isn't staged.

ghost use Rattle.std.specs.Prelude.{◌≡◌};
ghost use Rattle.entry_edit.specs.declared.error.Error.TheVariants.{Memory};

use bitflags::Flags as _;
use entry_fields::entry::Mode;
use index_parts::hash::Kind;
use std::alloc::{AllocError, AllocFailed};
use thiserror::Error;

/// Why an entry isn't staged. The entries and the storage of their paths are unchanged.
#[derive(Debug, Drop, Error)]
pub enum Error {
    /// The path is empty.
    #[error("the path is empty")]
    EmptyPath,
    /// The path has a NUL.
    #[error("the path has a NUL at byte {at}")]
    Nul {
        /// The index of the first NUL, counted from 0.
        at: usize,
    },
    /// The mode is none of the five modes of an index.
    #[error("the mode {:o} is none that an index has", mode.bits())]
    Mode {
        /// The mode.
        mode: Mode,
    },
    /// The id is of another hash algorithm than the index.
    #[error("the id is one of {actual:?}, but the index has ids of {expected:?}")]
    OtherKind {
        /// The hash algorithm of the index.
        expected: Kind,
        /// The hash algorithm of the id.
        actual: Kind,
    },
    /// The id is null: it is of no object.
    #[error("the id is the null id")]
    NullId,
    /// The mode is that of a complete directory of a sparse index, which can't be staged.
    #[error("the mode 40000 is that of a whole directory of a sparse index, which isn't staged")]
    WholeDirectory,
    /// The path has an empty name: it begins or ends with a slash, or has two in a row.
    #[error("the path has an empty name")]
    EmptyName,
    /// The caller's check rejects a name of the path.
    #[error("the path has a name that is refused by the check's number {number}")]
    Name {
        /// The check's own number of what is wrong with the name.
        number: u32,
    },
    /// The path is in a directory that is one entry of a sparse index.
    #[error("the path lies in a directory that a sparse index has as one entry: expand the index first")]
    InWholeDirectory,
    /// The path is too long for the storage of paths, or that is full.
    #[error("a path of {len} bytes has no place in the storage of paths")]
    PathTooLong {
        /// The length of the path in bytes.
        len: usize,
    },
    /// There is no memory for the edit.
    #[error("no memory is left for the edit")]
    Memory,
}

impl From<AllocError> for Error {
    ghost from_gives = { λ _ error. error ≡ Memory };

    fn from(_e: AllocError) -> Error {
        Error::Memory
    }
}

impl<T: Drop> From<AllocFailed<T>> for Error {
    ghost from_gives = { λ _ error. error ≡ Memory };

    fn from(_e: AllocFailed<T>) -> Error {
        Error::Memory
    }
}
