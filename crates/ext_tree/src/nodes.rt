//! Reads a node and everything below it.

ghost use Rattle.std.specs.List.Sorted.{IsPermutation};
ghost use Rattle.std.specs.Prelude.{◌≡◌, ◌≤◌, ◌+◌, ℕ, length, max, false, List, [], ◌∷◌, ◌++◌, map, IsTrue, IfOk, IfErr, IfSome, IfNone};
ghost use Rattle.std.specs.Vec.{vec_capacity};
ghost use Rattle.ext_tree.specs.Tree.{Node, node, nodes_from, node_of, NamesRise, IsNode};
ghost use Rattle.ext_tree.specs.Tree.{HasNodeHead};

use super::Tree;
use super::head::{NodeHead, roomy_head_of};
use super::order::compare_names;
use index_parts::hash::Kind;
use smallvec::SmallVec;
use std::alloc::{AllocError, Global};

/// Sorts siblings by name, and returns whether their names all differ.
fn sort_siblings(siblings: &mut Vec<Tree>) -> bool
    ensures same { IsPermutation (map node_of siblings.old.items) (map node_of siblings.new.items) }
    ensures apart { IsTrue result → NamesRise (map node_of siblings.new.items) }
    ensures refused { result ≡ false → (ts : List Node)
        → IsPermutation (map node_of siblings.old.items) ts → NamesRise ts → ⊥ }
{
    siblings.sort_unstable_by(|a, b| compare_names(a, b));
    let sorted = siblings.as_slice();
    for i in 1..sorted.len() {
        if !compare_names(&sorted[i - 1], &sorted[i]).is_lt() {
            return false;
        }
    }
    true
}

/// The number of siblings for which the first one allocates memory, if there are that many.
const FIRST_ROOM: usize = 4;

/// Allocates memory for more siblings if none is left.
///
/// It allocates for as many as there are, or for four, and never for more than the `left` siblings that are still to be
/// read. So siblings that are read take no more memory than they need, and declared ones take none.
fn make_room(siblings: &mut Vec<Tree>, left: u64) -> Result<(), AllocError>
    ensures items { siblings.new.items ≡ siblings.old.items }
    ensures few { vec_capacity siblings.new ≤ max (vec_capacity siblings.old)
        (length siblings.old.items + max (length siblings.old.items) 4) }
    ensures left { vec_capacity siblings.new
        ≤ max (vec_capacity siblings.old) (length siblings.old.items + left) }
{
    let there = siblings.len();
    if there == siblings.capacity() {
        let most = there.max(FIRST_ROOM) as u64;
        siblings.reserve_exact(left.min(most) as usize)?;
    }
    Ok(())
}

/// Appends a node with this head and its sorted children to `siblings`. It returns false if two of the children have
/// equal names.
///
/// `left` is the number of siblings that are still to be appended, with this one.
fn push_tree(
    alloc: Global,
    head: NodeHead<'_>,
    left: u64,
    mut children: Vec<Tree>,
    siblings: &mut Vec<Tree>,
) -> Result<bool, AllocError>
    ensures pushed { IfOk result (λ made. IsTrue made
        → (ts : List Node) × IsPermutation (map node_of children.items) ts × NamesRise ts
        × (map node_of siblings.new.items ≡ map node_of siblings.old.items ++ node
        head.entry.name.now head.entry.id head.entry.count (nodes_from ts) ∷ [])) }
    ensures refused { IfOk result (λ made. made ≡ false → (ts : List Node)
        → IsPermutation (map node_of children.items) ts → NamesRise ts → ⊥) }
{
    if !sort_siblings(&mut children) {
        return Ok(false);
    }
    let name = SmallVec::from_slice(alloc, head.name)?;
    make_room(siblings, left)?;
    siblings.push(Tree {
        name,
        id: head.id,
        num_entries: head.count,
        children,
    })?;
    Ok(true)
}

/// Reads the node at the start of `bytes`, appends it to `siblings`, and returns the bytes after it. It returns `None`
/// if there is no node with at most `levels` levels below it.
///
/// `left` is the number of siblings that are still to be read, with this one. Memory for a child is allocated only
/// after it was read. The call uses little stack, because its recursion is as deep as the tree.
pub(super) fn push_node<'a>(
    alloc: Global,
    kind: Kind,
    limit: Option<usize>,
    levels: u32,
    left: u64,
    bytes: &'a [u8],
    siblings: &mut Vec<Tree>,
) -> Result<Option<&'a [u8]>, AllocError>
    ensures some { IfOk result
        (λ found. IfSome found (λ rest. (t : Node)
        × (map node_of siblings.new.items ≡ map node_of siblings.old.items ++ t ∷ [])
        × IsNode kind limit levels bytes.now t rest.now)) }
    ensures none { IfOk result
        (λ found. IfNone found ((t : Node) (rest : List ℕ)
        → IsNode kind limit levels bytes.now t rest → ⊥)) }
    ensures memory { IfErr result (λ _. HasNodeHead kind limit bytes.now) }
{
    let Some((head, tail)) = roomy_head_of(kind, limit, bytes) else {
        return Ok(None);
    };
    let mut children = Vec::new(alloc);
    let mut rest = tail;
    for i in 0..head.number {
        if levels == 0 {
            return Ok(None);
        }
        let Some(after) = push_node(
            alloc,
            kind,
            limit,
            levels - 1,
            head.number - i,
            rest,
            &mut children,
        )?
        else {
            return Ok(None);
        };
        rest = after;
    }
    if !push_tree(alloc, head, left, children, siblings)? {
        return Ok(None);
    }
    Ok(Some(rest))
}
