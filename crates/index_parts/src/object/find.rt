//! Lookup of objects in a store.

ghost use Rattle.index_parts.specs.Object.{Found, IsFindResult};
ghost use Rattle.index_parts.specs.declared.hash.ObjectId.{ObjectId};

use super::Kind;
use crate::hash::ObjectId;
use thiserror::Error;

/// Why a store couldn't answer.
#[derive(Clone, Copy, Debug, PartialEq, Eq, Error)]
pub enum Error {
    /// The store failed. The number is the store's own.
    #[error("the object store failed with its fault number {0}")]
    Fault(u32),
    /// There is no memory for the object.
    #[error("no memory is left for the object")]
    Memory,
}

/// A store of uncompressed objects. What it has for an id depends only on the store's value.
pub trait Find {
    // What a store has for an id.
    ghost found: { Self → ObjectId → Found };

    /// Returns the type of the object with this id, or None if there is no such object. The object's bytes replace the
    /// content of `buf`.
    ///
    /// [`Error::Fault`] is returned if the store failed, [`Error::Memory`] if there is no memory for the object. After
    /// an error `buf` has unspecified content.
    fn find(&self, id: &ObjectId, buf: &mut Vec<u8>) -> Result<Option<Kind>, Error>
        ensures { IsFindResult (found self.now id.now) result buf.new.items };
}
