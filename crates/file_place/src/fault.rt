//! An error of one file.

ghost use Rattle.std.specs.IoError.{error_kind};
ghost use Rattle.std.specs.Prelude.{◌≡◌, IfNone, IfSome};
ghost use Rattle.std.specs.declared.io.ErrorKind.TheVariants.{OutOfMemory};
ghost use Rattle.file_place.specs.Locks.{IsOfDisk};

use std::fmt::Write as _;
use std::io::ErrorKind;
use std::path::PathBuf;
use std::{fmt, io};

/// A text that is displayed on one line: its control characters are escaped.
#[derive(Clone, Copy, Debug)]
pub struct OneLine<'a>(pub &'a str);

impl fmt::Display for OneLine<'_> {
    fn fmt<W: fmt::Write>(&self, f: &mut fmt::Formatter<W>) -> fmt::Result {
        for c in self.0.chars() {
            if c.is_control() {
                write!(f, "{}", c.escape_debug())?;
            } else {
                f.write_char(c)?;
            }
        }
        Ok(())
    }
}

/// The error of one file. It is displayed as one line: the path's control characters are escaped.
#[derive(Debug, Drop)]
pub struct PathError {
    /// The path of the file.
    pub path: PathBuf,
    /// The error of the system.
    pub error: io::Error,
}

impl PathError {
    /// Returns the error of a system call that failed for the file at `path`. Returns `None` if memory ran out.
    pub fn of(path: PathBuf, error: io::Error) -> Option<PathError>
        ensures path { IfSome result (λ fault. fault.path ≡ path) }
        ensures error { IfSome result (λ fault. fault.error ≡ error) }
        ensures disk { IfSome result (λ fault. IsOfDisk fault) }
        ensures memory { IfNone result (error_kind error ≡ OutOfMemory) }
    {
        if error.kind() == ErrorKind::OutOfMemory {
            return None;
        }
        Some(PathError { path, error })
    }
}

impl fmt::Display for PathError {
    fn fmt<W: fmt::Write>(&self, f: &mut fmt::Formatter<W>) -> fmt::Result {
        write!(
            f,
            "{}: {}",
            OneLine(self.path.as_path().as_str()),
            self.error
        )
    }
}

impl std::error::Error for PathError {}
