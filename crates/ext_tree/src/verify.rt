//! Checks whether a cache tree is valid.

ghost use Rattle.std.specs.Prelude.{◌≡◌, ◌↔◌, false, Option, Some, None, IfOk, IfErr, IsOk, IsTrue, map};
ghost use Rattle.std.specs.Option.{option_map};
ghost use Rattle.ext_tree.specs.Agreement.{Trees, AreStoredTrees};
ghost use Rattle.ext_tree.specs.ObjectSteps.{AreLooked, ObjectCause};
ghost use Rattle.ext_tree.specs.Sound.{entries_sum, RiseFrom, IsSoundTree, CountsAtMost};
ghost use Rattle.ext_tree.specs.TreeFaults.{tree_name_fault, order_fault, count_fault, row_fault};
ghost use Rattle.ext_tree.specs.TreeFaults.{object_fault, node_fault, tree_fault, excess_fault, excess_in};
ghost use Rattle.ext_tree.specs.TreeFaults.{Judges, NodeCause};
ghost use Rattle.ext_tree.specs.Tree.{node_of, nodes_from};
ghost use Rattle.ext_tree.specs.declared.verify.Error.TheVariants.{Memory};

use super::Tree;
use super::order::compare_names;
use bstr::BString;
use index_parts::hash::ObjectId;
use index_parts::object::Find;
use objects::check_tree;
use std::alloc::{AllocError, Global};
use thiserror::Error;

mod objects;

/// Why a cache tree isn't valid.
#[derive(Debug, Drop, Error)]
pub enum Error {
    /// The root has a name.
    #[error("the root of the cached tree is named {name:?}, and a root has no name")]
    RootWithName {
        /// The root's name.
        name: BString,
    },
    /// The children of a node count more entries than the node.
    #[error("the children of a node of the cached tree count {actual} entries, \
         but the node counts {expected}")]
    EntriesCount {
        /// The sum of the children's counts.
        actual: u32,
        /// The node's count.
        expected: u32,
    },
    /// The children of a node count more than 2^32 - 1 entries.
    #[error("the children of a node of the cached tree count more than 4294967295 entries")]
    EntriesCountOverflow,
    /// The name of a child isn't above the one before it.
    #[error("in the cached tree {current_path:?} follows {previous_path:?} \
         below the tree {parent_id}, but names increase")]
    OutOfOrder {
        /// The id of the parent of both children.
        parent_id: ObjectId,
        /// The name of the child.
        current_path: BString,
        /// The name of the child before it.
        previous_path: BString,
    },
    /// The store has no tree for a node with children.
    #[error("the tree {id} of the cached tree isn't in the object store")]
    TreeNodeNotFound {
        /// The id of the node.
        id: ObjectId,
    },
    /// A tree lists a directory, and no child of its node has that name.
    #[error("the tree {parent_id} has the directory {name:?} ({entry_id}), \
         but the cached tree has no such child")]
    MissingTreeDirectory {
        /// The id of the node and of its tree.
        parent_id: ObjectId,
        /// The id of the directory.
        entry_id: ObjectId,
        /// The name of the directory.
        name: BString,
    },
    /// The number of directories that a tree lists isn't the number of its node's children.
    #[error("the tree {oid} has {expected_childcount} directories, \
         but {actual_childcount} children in the cached tree")]
    TreeNodeChildcountMismatch {
        /// The id of the node and of its tree.
        oid: ObjectId,
        /// The number of directories that the tree lists.
        expected_childcount: usize,
        /// The number of children of the node.
        actual_childcount: usize,
    },
    /// A node counts more entries than the index has.
    #[error("the tree {name:?} of the cached tree counts {actual} entries, \
         but the index has {expected}")]
    EntriesCountExceedsIndex {
        /// The node's name; the root's is empty.
        name: BString,
        /// The node's count.
        actual: u32,
        /// The number of entries of the index.
        expected: usize,
    },
    /// Memory for the names of an error, or for an object, couldn't be allocated.
    #[error("no memory is left to check the cached tree")]
    Memory,
}

impl From<AllocError> for Error {
    ghost from_gives = { λ e error. error ≡ Memory };

    fn from(_e: AllocError) -> Error {
        Error::Memory
    }
}

/// Returns an error if the root has a name.
fn check_root(alloc: Global, name: &[u8]) -> Result<(), Error>
    ensures ok { IfOk result (λ _. tree_name_fault name.now ≡ None) }
    ensures err { IfErr result (λ e. NodeCause e (tree_name_fault name.now)) }
{
    if name.is_empty() {
        return Ok(());
    }
    let name = BString::from_slice(alloc, name)?;
    Err(Error::RootWithName { name })
}

/// Returns an error if the name isn't above the one before.
fn check_order(
    alloc: Global,
    parent_id: ObjectId,
    before: Option<&Tree>,
    tree: &Tree,
) -> Result<(), Error>
    ensures ok { IfOk result
        (λ _. order_fault parent_id (option_map (λ t. node_of t.now) before.entry)
        (node_of tree.now) ≡ None) }
    ensures err { IfErr result
        (λ e. NodeCause e
        (order_fault parent_id (option_map (λ t. node_of t.now) before.entry) (node_of tree.now))) }
{
    let Some(previous) = before else {
        return Ok(());
    };
    if compare_names(previous, tree).is_lt() {
        return Ok(());
    }
    let current_path = BString::from_slice(alloc, tree.name.as_slice())?;
    let previous_path = BString::from_slice(alloc, previous.name.as_slice())?;
    Err(Error::OutOfOrder {
        parent_id,
        current_path,
        previous_path,
    })
}

/// Returns the sum of the siblings' counts. It returns an error if the sum is too large, or a name isn't above the one
/// before.
fn sum_of(alloc: Global, parent_id: ObjectId, siblings: &[Tree]) -> Result<u32, Error>
    ensures sum { IfOk result (λ sum. sum ≡ entries_sum (nodes_from (map node_of siblings.now))) }
    ensures ok { IfOk result
        (λ _. row_fault parent_id 0 None (nodes_from (map node_of siblings.now)) ≡ None) }
    ensures err { IfErr result
        (λ e. NodeCause e (row_fault parent_id 0 None (nodes_from (map node_of siblings.now)))) }
{
    let mut sum = 0u32;
    let mut before = None;
    for tree in siblings {
        let Some(more) = sum.checked_add(tree.num_entries.unwrap_or(0)) else {
            return Err(Error::EntriesCountOverflow);
        };
        check_order(alloc, parent_id, before, tree)?;
        sum = more;
        before = Some(tree);
    }
    Ok(sum)
}

/// Returns an error if the children count more than the node, and the node has a count.
fn check_count(count: Option<u32>, sum: u32) -> Result<(), Error>
    ensures ok { IfOk result (λ _. count_fault count sum ≡ None) }
    ensures err { IfErr result (λ e. NodeCause e (count_fault count sum)) }
{
    let Some(expected) = count else {
        return Ok(());
    };
    if sum <= expected {
        return Ok(());
    }
    Err(Error::EntriesCount {
        actual: sum,
        expected,
    })
}

/// Returns an error if objects are used, and the object of a node with children isn't a tree with these directories.
fn check_object<F: Find>(
    alloc: Global,
    objects: Option<&F>,
    buf: &mut Vec<u8>,
    id: ObjectId,
    children: &[Tree],
) -> Result<(), Error>
    requires rise { RiseFrom None (nodes_from (map node_of children.now)) }
    ensures ok { IfOk result (λ _. (trees : Option Trees)
        → AreLooked (option_map (λ o. F.found o.now) objects.entry) trees
        → object_fault trees id (nodes_from (map node_of children.now)) ≡ None) }
    ensures err { IfErr result (λ e. (trees : Option Trees)
        → AreLooked (option_map (λ o. F.found o.now) objects.entry) trees
        → ObjectCause trees e (object_fault trees id (nodes_from (map node_of children.now)))) }
{
    let Some(objects) = objects else {
        return Ok(());
    };
    if children.is_empty() {
        return Ok(());
    }
    check_tree(alloc, objects, buf, id, children)
}

/// Returns the first error of a node and everything below it.
fn verify_node<F: Find>(
    alloc: Global,
    objects: Option<&F>,
    buf: &mut Vec<u8>,
    tree: &Tree,
) -> Result<(), Error>
    ensures ok { IfOk result (λ _. (trees : Option Trees)
        → AreLooked (option_map (λ o. F.found o.now) objects.entry) trees
        → node_fault trees (node_of tree.now) ≡ None) }
    ensures err { IfErr result (λ e. (trees : Option Trees)
        → AreLooked (option_map (λ o. F.found o.now) objects.entry) trees
        → ObjectCause trees e (node_fault trees (node_of tree.now))) }
{
    let children = tree.children.as_slice();
    let sum = sum_of(alloc, tree.id, children)?;
    check_object(alloc, objects, buf, tree.id, children)?;
    for child in children {
        verify_node(alloc, objects, buf, child)?;
    }
    check_count(tree.num_entries, sum)
}

/// Returns an error if a node with this name has a count above `entries`.
fn check_excess(alloc: Global, name: &[u8], count: Option<u32>, entries: usize) -> Result<(), Error>
    ensures ok { IfOk result (λ _. excess_fault entries name.now count ≡ None) }
    ensures err { IfErr result (λ e. NodeCause e (excess_fault entries name.now count)) }
{
    let Some(actual) = count else {
        return Ok(());
    };
    if actual as usize <= entries {
        return Ok(());
    }
    let name = BString::from_slice(alloc, name)?;
    Err(Error::EntriesCountExceedsIndex {
        name,
        actual,
        expected: entries,
    })
}

/// Returns the error of the first node in preorder that counts more than `entries` entries.
fn check_counts(alloc: Global, tree: &Tree, entries: usize) -> Result<(), Error>
    ensures ok { IfOk result (λ _. excess_in entries (node_of tree.now) ≡ None) }
    ensures err { IfErr result (λ e. NodeCause e (excess_in entries (node_of tree.now))) }
{
    check_excess(alloc, tree.name.as_slice(), tree.num_entries, entries)?;
    for child in &tree.children {
        check_counts(alloc, child, entries)?;
    }
    Ok(())
}

impl Tree {
    /// Checks whether the tree is valid (gitformat-index, "Cache tree").
    ///
    /// A tree is valid if all of these hold:
    ///
    /// - The root has no name.
    /// - At each node, the names of the children increase.
    /// - The sum of the children's counts is at most 2^32 - 1, and at most the node's own count, if it has one.
    ///
    /// With `use_objects`, each node with children is also looked up by its id. There has to be a tree with that id,
    /// and its directories have to be the children, by their names and by number. If a tree object is malformed, the
    /// entries before the malformed one are used. The ids of the children aren't compared.
    ///
    /// # Errors
    ///
    /// The first error is returned. The root's name comes first. At a node, its children together come first, then its
    /// tree, then each child with everything below it in turn, and last its own count.
    ///
    /// [`Error::Memory`] occurs in place of an error that has a name, or if the finder couldn't allocate memory.
    pub fn verify<F: Find>(
        &self,
        alloc: Global,
        use_objects: bool,
        objects: &F,
    ) -> Result<(), Error>
        ensures sound { use_objects ≡ false → (IsOk result ↔ IsSoundTree (node_of self.now)) }
        ensures fault { use_objects ≡ false
            → IfErr result (λ e. NodeCause e (tree_fault (node_of self.now))) }
        ensures objects { IsTrue use_objects
            → (trees : Trees) × AreStoredTrees (F.found objects.now) trees
            × Judges trees (node_of self.now) result }
    {
        check_root(alloc, self.name.as_slice())?;
        let objects = if use_objects { Some(objects) } else { None };
        let mut buf = Vec::new(alloc);
        verify_node(alloc, objects, &mut buf, self)
    }

    /// Checks that no node counts more than `entries` entries, which is the number of the index's entries.
    ///
    /// An error describes the first node in preorder that does. [`Error::Memory`] occurs in place of that error.
    pub fn verify_counts(&self, alloc: Global, entries: usize) -> Result<(), Error>
        ensures within { IsOk result ↔ CountsAtMost entries (node_of self.now) }
        ensures fault { IfErr result (λ e. NodeCause e (excess_in entries (node_of self.now))) }
    {
        check_counts(alloc, self, entries)
    }
}
