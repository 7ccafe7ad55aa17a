//! Errors of locking and reading an index.

ghost use Rattle.std.specs.Prelude.{◌≡◌};
ghost use Rattle.file_errors.specs.declared.lock.Error.TheVariants.{Lock as LockFault};

use crate::init;
use file_place::lock;
use thiserror::Error;

/// Why an index isn't locked and read.
#[derive(Debug, Drop, Error)]
pub enum Error {
    /// The lock can't be created.
    #[error("{0}")]
    Lock(lock::Error),
    /// The index can't be read. It isn't locked any more.
    #[error("{0}")]
    Read(init::Error),
}

impl From<lock::Error> for Error {
    ghost from_gives = { λ e error. error ≡ LockFault e };

    fn from(e: lock::Error) -> Error {
        Error::Lock(e)
    }
}
