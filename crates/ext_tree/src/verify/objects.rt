//! Checks whether the trees that a cache tree names exist, and list its nodes.

ghost use Rattle.std.specs.Prelude.{◌≡◌, ◌⊎◌, List, length, map, Some, None, IfOk, IfErr};
ghost use Rattle.index_parts.specs.Id.{id_kind};
ghost use Rattle.index_parts.specs.Object.{tree_bytes};
ghost use Rattle.index_parts.specs.TreeObject.{TreeEntry, Lists, tree_entry_of};
ghost use Rattle.ext_tree.specs.Agreement.{Trees, AreStoredTrees, directories, has_child};
ghost use Rattle.ext_tree.specs.Sound.{RiseFrom};
ghost use Rattle.ext_tree.specs.Tree.{node_of, nodes_from};
ghost use Rattle.ext_tree.specs.declared.verify.Error.TheVariants.{Memory};
ghost use Rattle.ext_tree.specs.TreeFaults.{no_tree, child_fault, missing_fault, listed_fault, NodeCause};
ghost use Rattle.ext_tree.specs.TreeFaults.{NodeOrMemoryCause};

use super::Error;
use crate::Tree;
use crate::order::compare_to;
use bstr::BString;
use index_parts::hash::{Kind, ObjectId};
use index_parts::object;
use index_parts::object::tree::{Entries, EntryRef};
use index_parts::object::{Find, find};
use std::alloc::Global;

/// Reads the tree with this id into the buffer. It returns an error if there is none.
fn find_tree<F: Find>(objects: &F, id: ObjectId, buf: &mut Vec<u8>) -> Result<(), Error>
    ensures ok { IfOk result (λ _. tree_bytes (F.found objects.now id) ≡ Some buf.new.items) }
    ensures err { IfErr result
        (λ e. (e ≡ Memory) ⊎ (NodeCause e (Some (no_tree id))
        × (tree_bytes (F.found objects.now id) ≡ None))) }
{
    match objects.find(&id, buf) {
        Ok(Some(object::Kind::Tree)) => Ok(()),
        Ok(Some(object::Kind::Blob)) => Err(Error::TreeNodeNotFound { id }),
        Ok(Some(object::Kind::Commit)) => Err(Error::TreeNodeNotFound { id }),
        Ok(Some(object::Kind::Tag)) => Err(Error::TreeNodeNotFound { id }),
        Ok(None) => Err(Error::TreeNodeNotFound { id }),
        Err(find::Error::Fault(_number)) => Err(Error::TreeNodeNotFound { id }),
        Err(find::Error::Memory) => Err(Error::Memory),
    }
}

/// Returns whether one of the nodes has this name. Each node's name is above the one before.
fn has_child(children: &[Tree], name: &[u8]) -> bool
    requires rise { RiseFrom None (nodes_from (map node_of children.now)) }
    ensures { result ≡ has_child name.now (nodes_from (map node_of children.now)) }
{
    children
        .binary_search_by(|child| compare_to(child, name))
        .is_ok()
}

/// Returns an error if `entry` is a directory of the node's tree, and no child has its name.
fn check_child(
    alloc: Global,
    parent_id: ObjectId,
    children: &[Tree],
    entry: EntryRef<'_>,
) -> Result<(), Error>
    requires rise { RiseFrom None (nodes_from (map node_of children.now)) }
    ensures ok { IfOk result
        (λ _. child_fault parent_id (nodes_from (map node_of children.now))
        (tree_entry_of entry.entry) ≡ None) }
    ensures err { IfErr result
        (λ e. NodeCause e
        (child_fault parent_id (nodes_from (map node_of children.now))
        (tree_entry_of entry.entry))) }
{
    if has_child(children, entry.filename) {
        return Ok(());
    }
    let name = BString::from_slice(alloc, entry.filename)?;
    Err(Error::MissingTreeDirectory {
        parent_id,
        entry_id: entry.oid,
        name,
    })
}

/// Returns the number of directories that a tree lists before it ends or is malformed. It returns an error for the
/// first one without a child of its name.
fn count_directories(
    alloc: Global,
    parent_id: ObjectId,
    children: &[Tree],
    bytes: &[u8],
) -> Result<usize, Error>
    requires rise { RiseFrom None (nodes_from (map node_of children.now)) }
    ensures number { IfOk result (λ number. (es : List TreeEntry)
        → Lists (id_kind parent_id) bytes.now es → number ≡ length (directories es)) }
    ensures ok { IfOk result (λ _. (es : List TreeEntry) → Lists (id_kind parent_id) bytes.now es
        → missing_fault parent_id (nodes_from (map node_of children.now)) (directories es) ≡ None) }
    ensures err { IfErr result (λ e. (es : List TreeEntry) → Lists (id_kind parent_id) bytes.now es
        → NodeCause e (missing_fault parent_id (nodes_from (map node_of children.now))
        (directories es))) }
{
    let mut entries = Entries::new(bytes, parent_id.kind());
    let mut number = 0usize;
    while let Some(entry) = entries.next() {
        let Ok(entry) = entry else {
            return Ok(number);
        };
        if entry.mode.is_tree() {
            check_child(alloc, parent_id, children, entry)?;
            number += 1;
        }
    }
    Ok(number)
}

/// Returns an error if a node's tree doesn't exist, or if the directories that it lists aren't the node's children.
pub(super) fn check_tree<F: Find>(
    alloc: Global,
    objects: &F,
    buf: &mut Vec<u8>,
    id: ObjectId,
    children: &[Tree],
) -> Result<(), Error>
    requires rise { RiseFrom None (nodes_from (map node_of children.now)) }
    ensures ok { IfOk result (λ _. (trees : Trees) → AreStoredTrees (F.found objects.now) trees
        → listed_fault id (nodes_from (map node_of children.now)) (trees id) ≡ None) }
    ensures err { IfErr result (λ e. (trees : Trees) → AreStoredTrees (F.found objects.now) trees
        → NodeOrMemoryCause e (listed_fault id (nodes_from (map node_of children.now)) (trees id))) }
{
    find_tree(objects, id, buf)?;
    let expected_childcount = count_directories(alloc, id, children, buf.as_slice())?;
    let actual_childcount = children.len();
    if expected_childcount == actual_childcount {
        return Ok(());
    }
    Err(Error::TreeNodeChildcountMismatch {
        oid: id,
        expected_childcount,
        actual_childcount,
    })
}
