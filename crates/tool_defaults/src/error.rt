//! Why the index or the hash algorithm of its ids isn't found.

ghost use Rattle.std.specs.Prelude.{◌≡◌, IfOk, take};
ghost use Rattle.std.specs.Path.{path_buf_bytes};

use gix_index::file::{OneLine, PathError};
use std::alloc::{AllocError, Global};
use std::fmt::Write as _;
use std::path::PathBuf;
use std::{fmt, io};
use thiserror::Error;

/// Why the index or the hash algorithm of its ids isn't found. Nothing is changed.
#[derive(Debug, Drop, Error)]
pub enum Error {
    /// This file can't be opened or read.
    #[error("{0}")]
    Io(PathError),
    /// The file is a pipe or a device, which can be read once only.
    #[error("{}: it is no regular file, so KIND has to be given: sha1 or sha256", OneLine(.0.as_path().as_str()))]
    NotRegular(PathBuf),
    /// The file has no bytes.
    #[error("{}: the file is empty, where an index has at least 32 bytes", OneLine(.0.as_path().as_str()))]
    Empty(PathBuf),
    /// The file doesn't have the signature of an index (gitformat-index: "DIRC").
    #[error("{}: no index of git: it begins with {start} and not with DIRC", OneLine(.path.as_path().as_str()))]
    NoIndex {
        /// The file.
        path: PathBuf,
        /// The bytes in the position of the signature.
        start: FirstBytes,
    },
    /// The hash algorithm can't be detected. The file is in no repository, and its trailer isn't its checksum, for
    /// example because it is null or the file is damaged. No file `config` next to it has the hash algorithm.
    #[error("{}: neither its trailer nor a file config beside it says the kind of its ids, so KIND has to be given: \
         sha1 or sha256", OneLine(.0.as_path().as_str()))]
    KindNotTold(PathBuf),
    /// This `config` of a repository names neither of the two hash algorithms (git-config, "extensions.objectFormat").
    #[error("{}: extensions.objectFormat is neither sha1 nor sha256, so KIND has to be given", OneLine(.0.as_path().as_str()))]
    OtherKind(PathBuf),
    /// This `commondir` of a linked work tree names no directory (gitrepository-layout, "commondir").
    #[error("{}: the file doesn't say a path in UTF-8", OneLine(.0.as_path().as_str()))]
    NoCommonDir(PathBuf),
    /// This `.git` is a file, and not of the form of one (gitrepository-layout: "gitdir: <path>").
    #[error("{}: the file doesn't say 'gitdir: ' and a path in UTF-8", OneLine(.0.as_path().as_str()))]
    NoGitDir(PathBuf),
    /// There is no `.git`, and no variable names the index.
    #[error("no FILE is given, and neither this folder nor one above it has a .git")]
    NoRepository,
    /// An allocation failed.
    #[error("out of memory while looking for the index and its kind")]
    Memory,
}

impl From<AllocError> for Error {
    ghost use Rattle.tool_defaults.specs.declared.error.Error.TheVariants.{Memory};

    ghost from_gives = { λ _e error. error ≡ Memory };

    fn from(_e: AllocError) -> Error {
        Error::Memory
    }
}

impl Error {
    ghost use Rattle.tool_defaults.specs.Faults.{IsOfFault};

    /// Returns the error of a call of the system that failed for the file at a path.
    pub fn of(path: PathBuf, error: io::Error) -> Error
        ensures { IsOfFault (path_buf_bytes path) error result }
    {
        match PathError::of(path, error) {
            Some(fault) => Error::Io(fault),
            None => Error::Memory,
        }
    }
}

/// The first bytes of a file: four, or all if it has fewer.
#[derive(Debug, Drop)]
pub struct FirstBytes {
    bytes: Vec<u8>,
}

impl FirstBytes {
    ghost use Rattle.tool_defaults.specs.Faults.{first_bytes};

    /// Returns the first bytes of a file that has these bytes.
    pub(crate) fn of(alloc: Global, bytes: &[u8]) -> Result<FirstBytes, AllocError>
        ensures { IfOk result (λ start. first_bytes start ≡ take 4 bytes.now) }
    {
        let bytes = Vec::from_slice(alloc, &bytes[..bytes.len().min(4)])?;
        Ok(FirstBytes { bytes })
    }
}

/// Displays the bytes in quotes. A byte that isn't printable ASCII is `\x` and two hexadecimal digits.
impl fmt::Display for FirstBytes {
    fn fmt<W: fmt::Write>(&self, f: &mut fmt::Formatter<W>) -> fmt::Result {
        f.write_char('"')?;
        for byte in &self.bytes {
            match *byte {
                b'"' | b'\\' => write!(f, "\\{}", char::from(*byte))?,
                b' '..=b'~' => f.write_char(char::from(*byte))?,
                _ => write!(f, "\\x{:02x}", *byte)?,
            }
        }
        f.write_char('"')
    }
}
