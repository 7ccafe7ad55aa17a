//! The errors for which a tree has no list of leaves.

ghost use Rattle.std.specs.Prelude.{◌≡◌};
ghost use Rattle.tree_decode.specs.declared.error.Error.TheVariants.{Memory};

use bstr::BString;
use index_parts::hash::ObjectId;
use std::alloc::{AllocError, AllocFailed};
use thiserror::Error;

/// Why a tree, or one below it, couldn't be read.
#[derive(Clone, Copy, Debug, PartialEq, Eq, Error)]
pub enum Traversal {
    /// The store has no such object.
    #[error("the tree {id} isn't in the object store")]
    NotFound {
        /// The id of the object.
        id: ObjectId,
    },
    /// The object isn't a tree.
    #[error("the object {id} is wanted as a tree, but is none")]
    NotATree {
        /// The id of the object.
        id: ObjectId,
    },
    /// The store failed.
    #[error("the object store failed with its fault number {fault} \
         where the tree {id} was looked up")]
    Find {
        /// The id of the object.
        id: ObjectId,
        /// The number that the store has for its error.
        fault: u32,
    },
    /// The object's bytes aren't the entries of a tree.
    #[error("the tree {id} is malformed: its bytes aren't entries alone, one after another")]
    Malformed {
        /// The id of the object.
        id: ObjectId,
    },
    /// The tree needs more objects than the caller allows to be read.
    #[error("the tree reaches more trees than the caller allows to be read")]
    TooManyObjects,
}

/// Why a tree has no list of leaves.
#[derive(Debug, Drop, Error)]
pub enum Error {
    /// The check rejected a name.
    #[error("the last component of the path {path:?} is refused by the check's number {source}")]
    InvalidComponent {
        /// The path that ends with the name.
        path: BString,
        /// The number that the check has for its reason.
        source: u32,
    },
    /// A tree couldn't be read.
    #[error("{0}")]
    Traversal(Traversal),
    /// Memory for the leaves, or for an object, couldn't be allocated.
    #[error("no memory is left to list the leaves of a tree")]
    Memory,
}

impl From<Traversal> for Error {
    ghost use Rattle.tree_decode.specs.declared.error.Error.TheVariants.{Traversal};

    ghost from_gives = { λ t e. e ≡ Traversal t };

    fn from(e: Traversal) -> Error {
        Error::Traversal(e)
    }
}

impl From<AllocError> for Error {
    ghost from_gives = { λ _ error. error ≡ Memory };

    fn from(_e: AllocError) -> Error {
        Error::Memory
    }
}

impl<T: Drop> From<AllocFailed<T>> for Error {
    ghost from_gives = { λ _ error. error ≡ Memory };

    fn from(_e: AllocFailed<T>) -> Error {
        Error::Memory
    }
}
