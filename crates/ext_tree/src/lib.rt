//! Reads, checks, invalidates and writes the cache tree extension (TREE), which has the tree objects of an index's
//! directories (gitformat-index, "Cache tree").
#![tactic(auto)]

ghost use Rattle.std.specs.Prelude.{◌≡◌, IfOk, IfErr};
ghost use Rattle.std.specs.Option.{option_map};
ghost use Rattle.index_extensions.specs.ExtensionValue.{IsRead};
ghost use Rattle.ext_tree.specs.Tree.{HasNodeHead, IsTree, node_of};

use index_extensions::Signature;
use index_parts::hash::{Kind, ObjectId};
use nodes::push_node;
use smallvec::SmallVec;
use std::alloc::{AllocError, Global};

mod decimal;
mod git_order;
mod head;
pub mod invalidate;
mod nodes;
pub mod order;
mod storable;
pub mod verify;
pub mod write;

/// The signature of the extension.
pub const SIGNATURE: Signature = *b"TREE";

/// The maximum number of levels of directories below the root.
const MAX_LEVELS: u32 = 2048;

/// A directory of the cache tree, with everything below it (gitformat-index, "Cache tree").
///
/// Nothing in it is compared with the entries, which may have been edited since.
#[derive(Drop, PartialEq, Eq, Debug)]
pub struct Tree {
    /// The directory's name, without a slash; the root has none.
    pub name: SmallVec<u8, 23, Global>,
    /// The id of the directory's tree object. It is null if there is no count.
    pub id: ObjectId,
    /// The number of entries below the directory. `None` if an edit has invalidated the node.
    pub num_entries: Option<u32>,
    /// The subdirectories. If the tree was read, they are sorted by the bytes of their names.
    pub children: Vec<Tree>,
}

/// Returns a tree with the same name, id and count, and clones of the children. An error means that memory couldn't be
/// allocated.
impl Clone for Tree {
    ghost is_clone = { λ t u. node_of u ≡ node_of t };

    fn clone(&self) -> Result<Tree, AllocError> {
        copy_of(self)
    }
}

/// Returns a tree with equal nodes.
fn copy_of(tree: &Tree) -> Result<Tree, AllocError>
    ensures { IfOk result (λ t. node_of t ≡ node_of tree.now) }
{
    let name = tree.name.clone()?;
    let mut children = Vec::with_capacity(*tree.children.allocator(), tree.children.len())?;
    for child in &tree.children {
        children.push(copy_of(child)?)?;
    }
    Ok(Tree {
        name,
        id: tree.id,
        num_entries: tree.num_entries,
        children,
    })
}

/// Decodes a cache tree from the content of its extension, and sorts the children of each node by name
/// (gitformat-index, "Cache tree").
///
/// It returns `None` in these cases:
///
/// - The bytes encode no tree.
/// - A node declares more children than the bytes after it can contain, at six bytes each.
/// - Two siblings have equal names.
/// - A node is more than 2048 levels below the root.
/// - The children of a node exceed the limit `alloc_limit_bytes`, at 104 bytes each.
///
/// An error means that memory couldn't be allocated. Memory is allocated only after the root's head was read, and if
/// the bytes after it are enough for its children.
pub fn decode(
    alloc: Global,
    data: &[u8],
    object_hash: Kind,
    alloc_limit_bytes: Option<usize>,
) -> Result<Option<Tree>, AllocError>
    ensures read { IfOk result
        (λ found. IsRead (IsTree object_hash alloc_limit_bytes) «data».now
        (option_map node_of found)) }
    ensures memory { IfErr result (λ _. HasNodeHead object_hash alloc_limit_bytes «data».now) }
{
    let mut roots = Vec::new(alloc);
    let Some(rest) = push_node(
        alloc,
        object_hash,
        alloc_limit_bytes,
        MAX_LEVELS,
        1,
        data,
        &mut roots,
    )?
    else {
        return Ok(None);
    };
    if !rest.is_empty() {
        return Ok(None);
    }
    Ok(roots.pop())
}
