//! Errors of verifying a file's checksum.

ghost use Rattle.std.specs.Prelude.{◌≡◌};
ghost use Rattle.file_errors.specs.declared.verify.Error.TheVariants.{Memory, Verify};

use file_place::fault::PathError;
use index_parts::hash;
use std::alloc::AllocError;
use thiserror::Error;

/// Why a file can't be verified, or has the wrong checksum.
#[derive(Debug, Drop, Error)]
pub enum Error {
    /// The file can't be opened or read.
    #[error("the index file can't be opened or read: {0}")]
    Io(PathError),
    /// The file has fewer bytes than an id.
    #[error("the index file has fewer bytes than the checksum at its end")]
    TooShort,
    /// The digest of the file's bytes isn't its checksum.
    #[error("the index file has changed since it was read or written: \
         its digest is {}, and was {}", .0.actual, .0.expected)]
    Verify(hash::verify::Error),
    /// An allocation failed.
    #[error("out of memory while reading an index file again")]
    Memory,
}

impl From<hash::verify::Error> for Error {
    ghost from_gives = { λ e error. error ≡ Verify e };

    fn from(e: hash::verify::Error) -> Error {
        Error::Verify(e)
    }
}

impl From<AllocError> for Error {
    ghost from_gives = { λ _e error. error ≡ Memory };

    fn from(_e: AllocError) -> Error {
        Error::Memory
    }
}
