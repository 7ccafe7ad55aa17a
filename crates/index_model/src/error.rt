//! The errors of decoding: of a header, of an extension, and of a complete index.

ghost use Rattle.std.specs.Prelude.{◌≡◌};
ghost use Rattle.index_model.specs.DecodeErrors.{entries_error, link_error};
ghost use Rattle.index_model.specs.declared.error.Error.TheVariants.{Extension, Header, Memory, Verify};
ghost use Rattle.index_model.specs.declared.error.Extension.TheVariants.{Link};

use entry_decode::entries::Error as EntriesError;
use ext_split::link;
use index_extensions::{Signature, sparse};
use index_parts::hash::{ObjectId, verify};
use std::alloc::{AllocError, AllocFailed};
use std::fmt;
use thiserror::Error;

/// Why a header is invalid.
#[derive(Debug, Drop, Error)]
pub enum Header {
    /// The reason, as text.
    #[error("{0}")]
    Corrupt(&'static str),
    /// The version, which isn't supported.
    #[error("index version {0} isn't supported, but 2, 3 and 4 are")]
    UnsupportedVersion(u32),
}

/// The first error in a mandatory extension.
#[derive(Debug, Drop, Error)]
pub enum Extension {
    /// A reader must understand this extension, and this one doesn't.
    #[error("{}", Refused(*.signature))]
    MandatoryUnimplemented {
        /// Its four bytes.
        signature: Signature,
    },
    /// The link to a shared index is invalid.
    #[error("{0}")]
    Link(link::decode::Error),
}

impl From<link::decode::Error> for Extension {
    ghost from_gives = { λ link e. e ≡ Link link };

    fn from(e: link::decode::Error) -> Extension {
        Extension::Link(e)
    }
}

/// Formats the signature of a mandatory extension that isn't understood: as text if it is text, or else in hexadecimal.
#[derive(Clone, Copy)]
struct Refused(Signature);

impl fmt::Display for Refused {
    fn fmt<W: fmt::Write>(&self, f: &mut fmt::Formatter<W>) -> fmt::Result {
        if self.0 == sparse::SIGNATURE {
            return f.write_str(
                "the mandatory extension `sdir` has content, which it must not have",
            );
        }
        match str::from_utf8(&self.0) {
            Ok(text) if self.0.iter().all(|byte| byte.is_ascii_graphic()) => {
                write!(f, "the mandatory extension `{text}` isn't supported")
            }
            _ => {
                let [a, b, c, d] = self.0;
                write!(
                    f,
                    "the mandatory extension with the signature \
                     {a:02x} {b:02x} {c:02x} {d:02x} isn't supported"
                )
            }
        }
    }
}

/// Why no index was decoded from bytes.
#[derive(Debug, Drop, Error)]
pub enum Error {
    /// The first twelve bytes are invalid, or they declare more entries than the file has room for.
    #[error("{0}")]
    Header(Header),
    /// Never returned: hashing can't fail here.
    #[error("the index's digest can't be computed")]
    Hasher,
    /// The caller's limit, `alloc_limit_bytes` of the options, is exceeded. This is no allocation failure.
    #[error("the index's entries or their paths take more memory than the caller's limit allows")]
    OutOfMemory,
    /// There is no valid entry at this index.
    #[error("entry {index} of the index, counted from 0, can't be read")]
    Entry {
        /// The index of the entry, counted from 0.
        index: u32,
    },
    /// A mandatory extension is invalid or not understood.
    #[error("{0}")]
    Extension(Extension),
    /// The number of bytes after all entries and extensions isn't the length of the trailer.
    #[error("{actual} bytes are left for the index's trailer, which takes {expected}")]
    UnexpectedTrailerLength {
        /// The length in bytes of an id of the index's hash algorithm.
        expected: usize,
        /// The actual number of bytes.
        actual: usize,
    },
    /// The trailer differs from `expected_checksum` of the options. If a complete file is checked before it is read,
    /// its digest differs from its trailer: then `actual` is the digest, and `expected` the trailer.
    #[error("the index's digest is {actual} and not {expected}: the file may be damaged, \
         have ids of the other kind, or be no index")]
    Verify {
        /// The trailer, or the digest.
        actual: ObjectId,
        /// The id that the caller expected, or the trailer.
        expected: ObjectId,
    },
    /// An allocation failed. An error that is found before any allocation is returned instead.
    #[error("out of memory while reading an index")]
    Memory,
}

impl From<Header> for Error {
    ghost from_gives = { λ h e. e ≡ Header h };

    fn from(e: Header) -> Error {
        Error::Header(e)
    }
}

impl From<Extension> for Error {
    ghost from_gives = { λ x e. e ≡ Extension x };

    fn from(e: Extension) -> Error {
        Error::Extension(e)
    }
}

impl From<verify::Error> for Error {
    ghost from_gives = { λ v e. e ≡ Verify v.actual v.expected };

    fn from(e: verify::Error) -> Error {
        Error::Verify {
            actual: e.actual,
            expected: e.expected,
        }
    }
}

impl From<EntriesError> for Error {
    ghost from_gives = { λ entries e. e ≡ entries_error entries };

    fn from(e: EntriesError) -> Error {
        match e {
            EntriesError::NoEntry { index } => Error::Entry { index },
            EntriesError::Memory => Error::Memory,
        }
    }
}

/// Maps an allocation failure to the variant for it, and every other error to that of a link.
impl From<link::decode::Error> for Error {
    ghost from_gives = { λ link e. e ≡ link_error link };

    fn from(e: link::decode::Error) -> Error {
        match e {
            link::decode::Error::Memory => Error::Memory,
            e => Error::Extension(Extension::Link(e)),
        }
    }
}

impl From<AllocError> for Error {
    ghost from_gives = { λ _ e. e ≡ Memory };

    fn from(_e: AllocError) -> Error {
        Error::Memory
    }
}

impl<T: Drop> From<AllocFailed<T>> for Error {
    ghost from_gives = { λ _ e. e ≡ Memory };

    fn from(_e: AllocFailed<T>) -> Error {
        Error::Memory
    }
}
