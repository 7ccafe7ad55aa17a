//! Comparison of the ids and counts in a cached tree with those that the entries give.

ghost use Rattle.std.specs.Prelude.{◌≡◌, ◌↔◌, ◌<◌, ◌^◌, ℕ, List, All, None, Some, IfOk, IfErr, IfSome, IsTrue};
ghost use Rattle.std.specs.Prelude.{OnOk, length};
ghost use Rattle.std.specs.Option.{option_map};
ghost use Rattle.entry_list.specs.Order.{IsOrderedByPath, IsStrictlyOrdered};
ghost use Rattle.entry_list.specs.Record.{Record, records_in};
ghost use Rattle.index_parts.specs.declared.hash.Kind.{Kind};
ghost use Rattle.index_parts.specs.declared.hash.ObjectId.{ObjectId};
ghost use Rattle.ext_tree.specs.Tree.{node_of};
ghost use Rattle.tree_encode.specs.Refusals.{AreFit};
ghost use Rattle.tree_encode.specs.Staged.{merged_in, staged_in, unmerged_in};
ghost use Rattle.tree_encode.specs.TreeIds.{AreRight, IsRight, TreeIdsCause, any_name, spots};
ghost use Rattle.tree_encode.specs.TreeIdsSteps.{GivesAt, IsChildOf, IsForwarded, IsSaid, IsSortedBelow};
ghost use Rattle.tree_encode.specs.TreeIdsSteps.{IsExpectedNode};
ghost use Rattle.tree_encode.specs.TreeIdsSteps.{FirstSpotCause, SpotCause, parent_path, given_node};
ghost use Rattle.tree_encode.specs.declared.tree_ids.Error.TheVariants.{Memory};

use crate::Error as WriteError;
use crate::merged::{has_entry_below, has_unmerged, partition};
use crate::sink::Discard;
use crate::write::write_trees;
use bstr::BString;
use entry_list::Entry;
use entry_list::slice::EntrySlice;
use ext_tree::Tree;
use ext_tree::order::compare_to;
use index_parts::check::ComponentCheck;
use index_parts::hash::{Kind, ObjectId};
use std::alloc::{AllocError, AllocFailed, Global};
use thiserror::Error;

/// How a cached tree (TREE extension) and the entries disagree, or why they can't be compared.
#[derive(Debug, Drop, Error)]
pub enum Error {
    /// A node has another id, or another count, than the entries below its directory give.
    #[error("the cached tree has the tree {id} with {count} entries \
         for the directory {path:?}, but its entries \
         give the tree {given_id} with {given_count}")]
    Other {
        /// The directory's path; that of the root is empty.
        path: BString,
        /// The node's id.
        id: ObjectId,
        /// The node's count.
        count: u32,
        /// The id of the tree that the entries give.
        given_id: ObjectId,
        /// The number of entries below the directory.
        given_count: u32,
    },
    /// A node has a count, but there is no entry below its directory, or an entry there is intent-to-add or unmerged.
    #[error("the cached tree has the tree {id} with {count} entries \
         for the directory {path:?}, but no entry is there, \
         or one is only intended to be added, or isn't merged")]
    Ungiven {
        /// The directory's path.
        path: BString,
        /// The node's id.
        id: ObjectId,
        /// The node's count.
        count: u32,
    },
    /// The merged entries can't be written as trees, so no node is compared.
    #[error("the entries have no trees to compare the cached tree with: {0}")]
    Entries(WriteError),
    /// An allocation failed.
    #[error("no memory is left to compare the cached tree with the entries")]
    Memory,
}

impl From<AllocError> for Error {
    ghost from_gives = { λ _ error. error ≡ Memory };

    fn from(_e: AllocError) -> Error {
        Error::Memory
    }
}

impl<T: Drop> From<AllocFailed<T>> for Error {
    ghost from_gives = { λ _ error. error ≡ Memory };

    fn from(_e: AllocFailed<T>) -> Error {
        Error::Memory
    }
}

/// A check that accepts each name.
#[derive(Clone, Copy)]
struct AnyName;

impl ComponentCheck for AnyName {
    ghost refusal = { λ _ _ _. None };

    fn check(&self, _name: &[u8], _symlink: bool) -> Result<(), u32> {
        Ok(())
    }
}

/// Returns the error for an error of writing the trees. An allocation failure and an error of the sink become
/// [`Error::Memory`].
fn no_trees(fault: WriteError) -> Error
    ensures { IsForwarded fault result }
{
    match fault {
        WriteError::Memory => Error::Memory,
        WriteError::Sink { fault: _number } => Error::Memory,
        fault => Error::Entries(fault),
    }
}

/// Returns the child of a node that has this name, if there is one. The child is found if the children are in the order
/// of their names.
pub(crate) fn child_of<'a>(given: Option<&'a Tree>, name: &[u8]) -> Option<&'a Tree>
    ensures found { IfSome (option_map (λ t. node_of t.now) result)
        (λ t. IsChildOf (option_map (λ t. node_of t.now) given.entry) name.now (Some t)) }
    ensures exactly { IsSortedBelow (option_map (λ t. node_of t.now) given.entry)
        → IsChildOf (option_map (λ t. node_of t.now) given.entry) name.now
        (option_map (λ t. node_of t.now) result) }
{
    let given = given?;
    let children = given.children.as_slice();
    let Ok(at) = children.binary_search_by(|child| compare_to(child, name)) else {
        return None;
    };
    Some(&children[at])
}

/// Returns the error for a node with this id and count that isn't right. `given` is the node that the entries give.
/// `parent` is the directory's path, with a slash after each name.
fn wrong(
    alloc: Global,
    given: Option<&Tree>,
    parent: &[u8],
    id: ObjectId,
    count: u32,
) -> Result<Error, AllocError>
    ensures { IfOk result
        (IsSaid (option_map (λ t. node_of t.now) given.entry) parent.now id count) }
{
    let (path, _) = parent.split_at(parent.len().saturating_sub(1));
    let path = BString::from_slice(alloc, path)?;
    if let Some(given) = given
        && let Some(given_count) = given.num_entries
    {
        return Ok(Error::Other {
            path,
            id,
            count,
            given_id: given.id,
            given_count,
        });
    }
    Ok(Error::Ungiven { path, id, count })
}

/// Returns whether `given` has this id and count.
pub(crate) fn is_given(given: Option<&Tree>, id: &ObjectId, count: u32) -> bool
    ensures { IsTrue result
        ↔ given_node (option_map (λ t. node_of t.now) given.entry) ≡ Some (id.now, count) }
{
    let Some(given) = given else {
        return false;
    };
    given.id == *id && given.num_entries == Some(count)
}

/// Returns `given`, or `None` if an unmerged entry is below the directory `parent`. The path `parent` has a slash after
/// each name.
fn given_beside<'a>(
    given: Option<&'a Tree>,
    unmerged: &EntrySlice<'_>,
    parent: &[u8],
) -> Option<&'a Tree>
    requires { IsOrderedByPath unmerged.now }
    ensures { (kind : Kind) (rs : List Record) (names : List (List ℕ))
        → unmerged.now ≡ unmerged_in rs → parent.now ≡ parent_path names
        → GivesAt kind (staged_in (merged_in rs)) names (option_map (λ t. node_of t.now) given.entry)
        → IsExpectedNode kind rs names (given_node (option_map (λ t. node_of t.now) result)) }
{
    if has_entry_below(unmerged, parent) {
        return None;
    }
    given
}

/// Returns an error if a node has a count, and its id or count isn't that of `given`. A count is also an error if an
/// unmerged entry is below the node's directory.
fn check_node(
    alloc: Global,
    given: Option<&Tree>,
    unmerged: &EntrySlice<'_>,
    parent: &[u8],
    id: ObjectId,
    count: Option<u32>,
) -> Result<(), Error>
    requires { IsOrderedByPath unmerged.now }
    ensures ok { IfOk result (λ _. (kind : Kind) (rs : List Record) (names : List (List ℕ))
        → unmerged.now ≡ unmerged_in rs → parent.now ≡ parent_path names
        → GivesAt kind (staged_in (merged_in rs)) names (option_map (λ t. node_of t.now) given.entry)
        → IsRight kind rs (record { names = names; id = id; count = count })) }
    ensures fault { IfErr result (λ e. (kind : Kind) (rs : List Record) (names : List (List ℕ))
        → unmerged.now ≡ unmerged_in rs → parent.now ≡ parent_path names
        → GivesAt kind (staged_in (merged_in rs)) names (option_map (λ t. node_of t.now) given.entry)
        → SpotCause kind rs (record { names = names; id = id; count = count }) e) }
{
    let Some(count) = count else {
        return Ok(());
    };
    let given = given_beside(given, unmerged, parent);
    if is_given(given, &id, count) {
        return Ok(());
    }
    Err(wrong(alloc, given, parent, id, count)?)
}

/// Returns the error for the first node of `tree`, in preorder, that has a count and isn't right. A node is right if
/// the entries give its directory the same id and count. `parent` has the names that lead to `tree`, each with a slash
/// after it.
fn check_nodes(
    alloc: Global,
    given: Option<&Tree>,
    unmerged: &EntrySlice<'_>,
    parent: &mut Vec<u8>,
    tree: &Tree,
) -> Result<(), Error>
    requires { IsOrderedByPath unmerged.now }
    ensures parent { OnOk result (parent.new.items ≡ parent.old.items) }
    ensures ok { IfOk result (λ _. (kind : Kind) (rs : List Record) (names : List (List ℕ))
        → unmerged.now ≡ unmerged_in rs → parent.old.items ≡ parent_path names
        → GivesAt kind (staged_in (merged_in rs)) names (option_map (λ t. node_of t.now) given.entry)
        → All (IsRight kind rs) (spots names (node_of tree.now))) }
    ensures fault { IfErr result (λ e. (kind : Kind) (rs : List Record) (names : List (List ℕ))
        → unmerged.now ≡ unmerged_in rs → parent.old.items ≡ parent_path names
        → GivesAt kind (staged_in (merged_in rs)) names (option_map (λ t. node_of t.now) given.entry)
        → FirstSpotCause kind rs (spots names (node_of tree.now)) e) }
{
    check_node(alloc, given, unmerged, parent, tree.id, tree.num_entries)?;
    let len = parent.len();
    for child in &tree.children {
        let name = child.name.as_slice();
        parent.extend_from_slice(name)?;
        parent.extend_from_slice(b"/")?;
        check_nodes(alloc, child_of(given, name), unmerged, parent, child)?;
        parent.truncate(len);
    }
    Ok(())
}

/// Compares the nodes of a cached tree with what the merged entries give. A directory with an unmerged entry below it
/// is given nothing.
fn verify_beside(
    alloc: Global,
    kind: Kind,
    merged: &EntrySlice<'_>,
    unmerged: &EntrySlice<'_>,
    tree: &Tree,
) -> Result<(), Error>
    requires ordered { IsStrictlyOrdered merged.now }
    requires unmerged { IsOrderedByPath unmerged.now }
    ensures right { IfOk result (λ _. (rs : List Record)
        → merged.now ≡ merged_in rs → unmerged.now ≡ unmerged_in rs
        → AreRight kind rs (node_of tree.now)) }
    ensures fit { IfOk result (λ _. AreFit any_name kind merged.now) }
    ensures few { IfOk result (λ _. length merged.now < 2 ^ 31) }
    ensures fault { IfErr result (λ e. (rs : List Record)
        → merged.now ≡ merged_in rs → unmerged.now ≡ unmerged_in rs
        → TreeIdsCause kind rs (node_of tree.now) e) }
{
    let given = match write_trees(alloc, kind, merged, &AnyName, &mut Discard) {
        Ok(given) => given,
        Err(fault) => return Err(no_trees(fault)),
    };
    let mut parent = Vec::new(alloc);
    check_nodes(alloc, Some(&given), unmerged, &mut parent, tree)
}

/// Checks that each node of a cached tree with a count has the id and the count that the entries below its directory
/// give. The paths of `entries` are in `backing`. A directory with an unmerged entry below it is given no id and count.
///
/// # Errors
///
/// - [`Error::Other`] or [`Error::Ungiven`] for the first node, in preorder, that isn't right.
/// - [`Error::Entries`] if the merged entries can't be written as trees.
/// - [`Error::Memory`] if an allocation fails.
pub fn verify_tree_ids(
    alloc: Global,
    kind: Kind,
    entries: &[Entry],
    backing: &[u8],
    tree: &Tree,
) -> Result<(), Error>
    requires { IsStrictlyOrdered (records_in backing.now entries.now) }
    ensures right { IfOk result
        (λ _. AreRight kind (records_in backing.now entries.now) (node_of tree.now)) }
    ensures fit { IfOk result
        (λ _. AreFit any_name kind (merged_in (records_in backing.now entries.now))) }
    ensures few { IfOk result
        (λ _. length (merged_in (records_in backing.now entries.now)) < 2 ^ 31) }
    ensures fault { IfErr result
        (TreeIdsCause kind (records_in backing.now entries.now) (node_of tree.now)) }
{
    if !has_unmerged(entries) {
        let merged = EntrySlice::new(entries, backing);
        return verify_beside(alloc, kind, &merged, &merged.first(0), tree);
    }
    let (merged, unmerged) = partition(alloc, entries)?;
    let merged = EntrySlice::new(&merged, backing);
    verify_beside(
        alloc,
        kind,
        &merged,
        &EntrySlice::new(&unmerged, backing),
        tree,
    )
}
