//! Objects of an object store.

ghost use Rattle.index_parts.specs.Object.{absent};

pub mod find;
pub mod tree;

use crate::hash::ObjectId;
pub use find::Find;

/// The type of an object.
#[derive(Clone, Copy, Debug, PartialEq, Eq, PartialOrd, Ord, Hash)]
pub enum Kind {
    /// A directory.
    Tree,
    /// The content of a file.
    Blob,
    /// A commit.
    Commit,
    /// An annotated tag.
    Tag,
}

/// A store without objects, for calls that use none.
#[derive(Clone, Copy, Debug, Default, PartialEq, Eq)]
pub struct NoObjects;

impl Find for NoObjects {
    ghost found = { λ _ _. absent };

    fn find(&self, _id: &ObjectId, _buf: &mut Vec<u8>) -> Result<Option<Kind>, find::Error> {
        Ok(None)
    }
}
