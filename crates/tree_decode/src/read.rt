//! Reads complete trees from a store.

ghost use Rattle.std.specs.Prelude.{◌≡◌, false, IsTrue, IfOk, IfErr};
ghost use Rattle.index_parts.specs.Object.{object};
ghost use Rattle.index_parts.specs.TreeObject.{IsMalformedTree};
ghost use Rattle.index_parts.specs.declared.object.Kind.TheVariants.{Tree};
ghost use Rattle.tree_decode.specs.Leaves.{IsUnreadTree, LeavesCause};
ghost use Rattle.tree_decode.specs.LeafSteps.{IsSomeTree};

use crate::error::{Error, Traversal};
use index_parts::hash::{Kind, ObjectId};
use index_parts::object;
use index_parts::object::tree::Entries;
use index_parts::object::{Find, find};
use std::alloc::Global;

/// Returns whether bytes are the entries of a tree, and nothing else.
fn is_whole(bytes: &[u8], kind: Kind) -> bool
    ensures whole { IsTrue result → IsSomeTree kind bytes.now }
    ensures malformed { result ≡ false → IsMalformedTree kind bytes.now }
{
    let mut entries = Entries::new(bytes, kind);
    while let Some(entry) = entries.next() {
        if entry.is_err() {
            return false;
        }
    }
    true
}

/// Returns the bytes of the tree with this id, whose entries have ids of the hash algorithm `kind`.
pub(crate) fn read_tree<F: Find>(
    alloc: Global,
    objects: &F,
    id: ObjectId,
    kind: Kind,
) -> Result<Vec<u8>, Error>
    ensures found { IfOk result (λ bytes. F.found objects.now id ≡ object Tree bytes.items) }
    ensures whole { IfOk result (λ bytes. IsSomeTree kind bytes.items) }
    ensures fault { IfErr result (λ e. LeavesCause e (IsUnreadTree (F.found objects.now) kind id)) }
{
    let mut bytes = Vec::new(alloc);
    match objects.find(&id, &mut bytes) {
        Ok(Some(object::Kind::Tree)) => {}
        Ok(Some(object::Kind::Blob)) => return Err(Error::Traversal(Traversal::NotATree { id })),
        Ok(Some(object::Kind::Commit)) => return Err(Error::Traversal(Traversal::NotATree { id })),
        Ok(Some(object::Kind::Tag)) => return Err(Error::Traversal(Traversal::NotATree { id })),
        Ok(None) => return Err(Error::Traversal(Traversal::NotFound { id })),
        Err(find::Error::Fault(fault)) => {
            return Err(Error::Traversal(Traversal::Find { id, fault }));
        }
        Err(find::Error::Memory) => return Err(Error::Memory),
    }
    if !is_whole(&bytes, kind) {
        return Err(Error::Traversal(Traversal::Malformed { id }));
    }
    Ok(bytes)
}
