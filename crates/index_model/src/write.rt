//! The options and errors of writing an index as the bytes of a file.

ghost use Rattle.std.specs.Prelude.{◌≡◌, Some, None, if◌then◌else◌};
ghost use Rattle.index_model.specs.declared.write.Error.TheVariants.{Io};
ghost use Rattle.index_model.specs.Image.{asks_for, is_kept};

pub use entry_list::write::VersionChoice;
use ext_tree as tree;
use index_extensions::{Signature, end_of_index_entry};
use std::io;
use thiserror::Error;

/// Which optional extensions are written.
#[derive(Clone, Copy, Debug, Default, PartialEq, Eq)]
pub enum Extensions {
    /// The cache tree if the state has one, and an end marker after other extensions.
    #[default]
    All,
    /// The extensions that are chosen here.
    Given {
        /// The cache tree, if the state has one.
        tree_cache: bool,
        /// The end marker, after other extensions.
        end_of_index_entry: bool,
    },
    /// All extensions that the state has and that still match its entries, in git's order: the cache tree,
    /// resolve-undo, the untracked cache, the answer of a file system monitor, and an end marker if there was one.
    ///
    /// A cache tree, an untracked cache and a monitor's answer are omitted in these cases:
    ///
    /// - entries were edited in a way that doesn't update them,
    /// - the state is a split index that was read alone,
    /// - an entry is marked `REMOVE`.
    ///
    /// An untracked cache with an empty name and a monitor's answer with more bits than entries are also omitted. git
    /// doesn't read them as they are.
    Kept,
    /// No extension, which gives the smallest file.
    None,
}

/// The options of writing.
#[derive(Clone, Copy, Debug, Default)]
pub struct Options {
    /// Which extensions are written, in addition to those that a reader needs.
    pub extensions: Extensions,
    /// Which version is written.
    pub version: VersionChoice,
    /// Whether the trailer of a complete file is zeros instead of its digest (git's `index.skipHash`).
    pub skip_hash: bool,
}

/// Why an index was not written.
#[derive(Debug, Drop, Error)]
pub enum Error {
    /// There are more than 2^32 - 1 entries, including those that would be omitted. No byte was written.
    #[error("the index has more entries than the 4294967295 that a file can count")]
    TooManyEntries,
    /// Version 4 was chosen, and a path that would be written contains a NUL, which ends a path there. No byte was
    /// written.
    #[error("a path of the index has a NUL byte, which a file of version 4 can't hold")]
    NulInPath,
    /// There would be more than 2^32 - 1 bytes before the end marker. No byte was written.
    #[error("the index would take more than the 4294967295 bytes that a file's offsets can reach")]
    TooLarge,
    /// The writer failed, after it took a prefix of the bytes.
    #[error("the index was not written whole: {0}")]
    Io(io::Error),
}

impl From<io::Error> for Error {
    ghost from_gives = { λ e error. error ≡ Io e };

    fn from(e: io::Error) -> Error {
        Error::Io(e)
    }
}

impl Extensions {
    /// Returns whether all extensions that match are written.
    pub fn is_kept(&self) -> bool
        ensures { result ≡ is_kept self.now }
    {
        matches!(*self, Extensions::Kept)
    }

    /// Returns the signature if the extension with it is to be written. This concerns optional extensions. `sdir` is
    /// always written if the index is sparse, although the result for it is `None` unless the choice is
    /// [`Extensions::All`] or [`Extensions::Kept`].
    pub fn should_write(&self, signature: Signature) -> Option<Signature>
        ensures { result ≡ (if asks_for self.now signature then Some signature else None) }
    {
        let asked = match *self {
            Extensions::All | Extensions::Kept => true,
            Extensions::Given {
                tree_cache,
                end_of_index_entry,
            } => {
                if signature == tree::SIGNATURE {
                    tree_cache
                } else if signature == end_of_index_entry::SIGNATURE {
                    end_of_index_entry
                } else {
                    false
                }
            }
            Extensions::None => false,
        };
        if asked { Some(signature) } else { None }
    }
}
