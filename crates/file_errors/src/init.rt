//! Errors of reading an index from a file.

ghost use Rattle.std.specs.Path.{path_buf_bytes};
ghost use Rattle.std.specs.Prelude.{◌≡◌};
ghost use Rattle.file_errors.specs.ReadErrors.{IsOfCall, error_of, link_error_of};
ghost use Rattle.file_errors.specs.declared.init.Error.TheVariants.{Memory};

use ext_split::link;
use file_place::fault::PathError;
use index_model::decode;
use std::alloc::AllocError;
use std::io;
use std::path::PathBuf;
use thiserror::Error;

/// Why an index can't be read from a file, or created for it.
#[derive(Debug, Drop, Error)]
pub enum Error {
    /// The file can't be opened or read.
    #[error("the index file can't be opened or read: {0}")]
    Io(PathError),
    /// The bytes aren't an index, or they aren't the bytes that were written.
    #[error("{0}")]
    Decode(decode::Error),
    /// The shared index that a split index links to can't be used.
    #[error("the link to a shared index can't be followed: {0}")]
    LinkExtension(link::decode::Error),
    /// An allocation failed.
    #[error("out of memory while reading an index file")]
    Memory,
}

/// Converts an error of decoding. `Memory` becomes [`Error::Memory`], every other error [`Error::Decode`].
impl From<decode::Error> for Error {
    ghost from_gives = { λ e error. error ≡ error_of e };

    fn from(e: decode::Error) -> Error {
        match e {
            decode::Error::Memory => Error::Memory,
            e => Error::Decode(e),
        }
    }
}

/// Converts an error of the link to a shared index. `Memory` becomes [`Error::Memory`], every other error
/// [`Error::LinkExtension`].
impl From<link::decode::Error> for Error {
    ghost from_gives = { λ e error. error ≡ link_error_of e };

    fn from(e: link::decode::Error) -> Error {
        match e {
            link::decode::Error::Memory => Error::Memory,
            e => Error::LinkExtension(e),
        }
    }
}

impl From<AllocError> for Error {
    ghost from_gives = { λ _e error. error ≡ Memory };

    fn from(_e: AllocError) -> Error {
        Error::Memory
    }
}

impl Error {
    /// Returns the error for a system call that failed for the file at `path`.
    pub fn of(path: PathBuf, error: io::Error) -> Error
        ensures { IsOfCall (path_buf_bytes path) error result }
    {
        match PathError::of(path, error) {
            Some(fault) => Error::Io(fault),
            None => Error::Memory,
        }
    }
}
