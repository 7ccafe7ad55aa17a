//! Errors of writing an index to a file.

ghost use Rattle.std.specs.Prelude.{◌≡◌};
ghost use Rattle.std.specs.Path.{path_buf_bytes};
ghost use Rattle.file_errors.specs.WriteFaults.{LockWriteCause, WriteStepCause};
ghost use Rattle.file_errors.specs.declared.write.Error.TheVariants.{Memory};

use file_place::fault::PathError;
use index_model::write::Error as PutError;
use std::alloc::AllocError;
use std::io;
use std::path::PathBuf;
use thiserror::Error;

/// Why an index wasn't written to its path. A variant with a path names the lock file, except [`Error::CommitLock`].
#[derive(Debug, Drop, Error)]
pub enum Error {
    /// A write to the lock file failed.
    #[error("the index can't be written to its lock file: {0}")]
    Io(PathError),
    /// The lock file can't be created. It already exists because another process writes the index, or its directory
    /// doesn't exist.
    #[error("the index's lock file can't be made: {0}")]
    AcquireLock(PathError),
    /// The lock file can't be renamed to this path, which is that of the index.
    #[error("the index can't be replaced by its lock file: {0}")]
    CommitLock(PathError),
    /// As [`index_model::write::Error::TooManyEntries`].
    #[error("the index has more entries than the 4294967295 that a file can count")]
    TooManyEntries,
    /// As [`index_model::write::Error::NulInPath`].
    #[error("a path of the index has a NUL byte, which a file of version 4 can't hold")]
    NulInPath,
    /// As [`index_model::write::Error::TooLarge`].
    #[error("the index would take more than the 4294967295 bytes that a file's offsets can reach")]
    TooLarge,
    /// An allocation failed.
    #[error("out of memory while writing an index file")]
    Memory,
}

impl From<AllocError> for Error {
    ghost from_gives = { λ _e error. error ≡ Memory };

    fn from(_e: AllocError) -> Error {
        Error::Memory
    }
}

/// The steps of replacing a file by an index, in this order.
#[derive(Clone, Copy, Debug, PartialEq, Eq)]
pub enum Step {
    /// The lock file is created.
    Lock,
    /// All bytes are written to it.
    Put,
    /// It replaces the index.
    Commit,
}

/// Returns the error for a step that failed for the file at `path`.
pub fn fault_of(step: Step, path: PathBuf, error: io::Error) -> Error
    ensures { WriteStepCause step (path_buf_bytes path) error result }
{
    let Some(fault) = PathError::of(path, error) else {
        return Error::Memory;
    };
    match step {
        Step::Lock => Error::AcquireLock(fault),
        Step::Put => Error::Io(fault),
        Step::Commit => Error::CommitLock(fault),
    }
}

/// Returns the error for bytes that can't be written to the lock file.
pub fn put_fault(lock: PathBuf, error: PutError) -> Error
    ensures { LockWriteCause (path_buf_bytes lock) error result }
{
    match error {
        PutError::Io(e) => fault_of(Step::Put, lock, e),
        PutError::TooManyEntries => Error::TooManyEntries,
        PutError::NulInPath => Error::NulInPath,
        PutError::TooLarge => Error::TooLarge,
    }
}
