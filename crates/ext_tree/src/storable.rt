//! Checks whether bytes can encode a cache tree.

ghost use Rattle.std.specs.Prelude.{◌≢◌, ◌↔◌, ◌<◌, ◌^◌, All, map, None, IfSome, IsTrue};
ghost use Rattle.std.specs.Option.{option_map};
ghost use Rattle.ext_tree.specs.Sound.{RiseFrom};
ghost use Rattle.ext_tree.specs.StorableSteps.{AreApart, IsSortedAfter, IsPlainHead, IsStorableWithin};
ghost use Rattle.ext_tree.specs.StoredTree.{IsApartFrom, IsStorableTree};
ghost use Rattle.ext_tree.specs.Tree.{node_of, nodes_from};

use super::order::compare_names;
use super::{MAX_LEVELS, Tree};
use index_parts::hash::Kind;

/// Returns whether no byte of the name is a NUL.
fn lacks_nul(name: &[u8]) -> bool
    ensures { IsTrue result ↔ All (λ b. b ≢ 0) name.now }
{
    name.iter().all(|byte| *byte != 0)
}

/// Returns whether the count has at most 31 bits, or is absent.
fn is_small(count: Option<u32>) -> bool
    ensures { IsTrue result ↔ IfSome count (λ n. n < 2 ^ 31) }
{
    count.unwrap_or(0) < 1 << 31
}

/// Returns whether bytes can encode the name, count and id of the node.
fn has_plain_head(tree: &Tree, kind: Kind) -> bool
    ensures { IsTrue result ↔ IsPlainHead kind (node_of tree.now) }
{
    lacks_nul(tree.name.as_slice()) && is_small(tree.num_entries) && tree.id.is_of_kind(kind)
}

/// Returns whether the name is above the one before, if there is one.
fn is_above(before: Option<&Tree>, tree: &Tree) -> bool
    ensures { IsTrue result
        ↔ IsSortedAfter (option_map (λ t. node_of t.now) before.entry) (node_of tree.now) }
{
    match before {
        None => true,
        Some(previous) => compare_names(previous, tree).is_lt(),
    }
}

/// Returns whether each name is above the one before.
fn names_rise(trees: &[Tree]) -> bool
    ensures { IsTrue result ↔ RiseFrom None (nodes_from (map node_of trees.now)) }
{
    let mut before = None;
    for tree in trees {
        if !is_above(before, tree) {
            return false;
        }
        before = Some(tree);
    }
    true
}

/// Returns whether the node's name differs from the name of each of these.
fn is_apart(tree: &Tree, others: &[Tree]) -> bool
    ensures { IsTrue result
        ↔ IsApartFrom (node_of tree.now) (nodes_from (map node_of others.now)) }
{
    for other in others {
        if compare_names(tree, other).is_eq() {
            return false;
        }
    }
    true
}

/// Returns whether all names differ. One pass suffices if the names increase, as they do in each tree that was read.
fn are_apart(trees: &[Tree]) -> bool
    ensures { IsTrue result ↔ AreApart (nodes_from (map node_of trees.now)) }
{
    if names_rise(trees) {
        return true;
    }
    let mut rest = trees;
    while let [tree, others @ ..] = rest {
        if !is_apart(tree, others) {
            return false;
        }
        rest = others;
    }
    true
}

/// Returns whether bytes can encode the node with everything below it, which has at most `levels` levels.
fn is_storable_within(tree: &Tree, kind: Kind, levels: u32) -> bool
    ensures { IsTrue result ↔ IsStorableWithin kind levels (node_of tree.now) }
{
    let children = tree.children.as_slice();
    if !has_plain_head(tree, kind) || !are_apart(children) {
        return false;
    }
    for child in children {
        if levels == 0 || !is_storable_within(child, kind, levels - 1) {
            return false;
        }
    }
    true
}

impl Tree {
    /// Returns whether an index of the hash algorithm `object_hash` can store the tree (gitformat-index, "Cache tree").
    ///
    /// It can if all of these hold:
    ///
    /// - No name has a NUL.
    /// - No count has more than 31 bits.
    /// - Siblings have different names.
    /// - Each id is of the hash algorithm.
    /// - No node is more than 2048 levels below the root.
    ///
    /// Each tree that was read with this hash algorithm is storable. No memory is allocated. If the names of siblings
    /// don't increase, each is compared with all those after it.
    pub fn is_storable(&self, object_hash: Kind) -> bool
        ensures { IsTrue result ↔ IsStorableTree object_hash (node_of self.now) }
    {
        is_storable_within(self, object_hash, MAX_LEVELS)
    }
}
