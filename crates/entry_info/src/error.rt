//! Errors in the text.

ghost use Rattle.std.specs.Prelude.{◌≡◌};
ghost use Rattle.entry_info.specs.declared.error.Error.TheVariants.{Memory};

use std::alloc::{AllocError, AllocFailed};
use thiserror::Error;

/// The error in a line.
#[derive(Clone, Copy, Debug, PartialEq, Eq, Drop, Error)]
pub enum Fault {
    /// There is no tab before a path.
    #[error("no tab stands before a path")]
    NoTab,
    /// There is no space after the mode.
    #[error("no id stands behind the mode")]
    NoId,
    /// There are more than three fields before the tab.
    #[error("more stands before the tab than a mode, an id, and a type or a stage")]
    Words,
    /// The mode isn't an octal number of at most 32 bits.
    #[error("the mode is no octal number of 32 bits")]
    Mode,
    /// The stage isn't 0, 1, 2 or 3.
    #[error("the stage is none of 0 to 3")]
    Stage,
    /// The id doesn't have the number of digits of base 16 of its hash algorithm.
    #[error("the id isn't of {digits} digits of base 16")]
    Id {
        /// The number of digits of an id of this hash algorithm.
        digits: usize,
    },
    /// The path begins with a double quote, but isn't quoted as git quotes a path.
    #[error("the path begins with a double quote, but isn't quoted as git quotes one")]
    Quoting,
}

/// Why a text isn't read.
#[derive(Debug, Drop, Error)]
pub enum Error {
    /// A line is wrong. All lines before it are right.
    #[error("line {number}: {fault}")]
    Line {
        /// The number of the line, counted from 1.
        number: usize,
        /// The error in the line.
        fault: Fault,
    },
    /// There is no memory for the changes.
    #[error("no memory is left for the changes")]
    Memory,
}

impl From<AllocError> for Error {
    ghost from_gives = { λ _ error. error ≡ Memory };

    fn from(_e: AllocError) -> Error {
        Error::Memory
    }
}

impl<T: Drop> From<AllocFailed<T>> for Error {
    ghost from_gives = { λ _ error. error ≡ Memory };

    fn from(_e: AllocFailed<T>) -> Error {
        Error::Memory
    }
}
