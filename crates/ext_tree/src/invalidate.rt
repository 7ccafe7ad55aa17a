//! Invalidates the parts of a cache tree that an edit of a path makes out of date (gitformat-index, "Cache tree").

ghost use Rattle.std.specs.Prelude.{◌≡◌, ℕ, All, None, false, map, position, IsNone};
ghost use Rattle.ext_tree.specs.Sound.{CountsAtMost};
ghost use Rattle.ext_tree.specs.StoredTree.{IsStorableTree};
ghost use Rattle.ext_tree.specs.Tree.{node_of, nodes_from};
ghost use Rattle.ext_tree.specs.declared.Tree.TheViews.{out-Tree};
ghost use Rattle.index_parts.specs.Id.{id_kind, null_id};
ghost use Rattle.index_parts.specs.Path.{slash_of};
ghost use Rattle.index_parts.specs.declared.hash.Kind.{Kind};
ghost use Rattle.ext_tree.specs.Invalidation.{invalidated, invalidated_below, is_node_named};

use crate::Tree;
use crate::order::compare_to;
use index_parts::path::slash_of;

/// Returns whether the node has the name.
fn has_name(tree: &Tree, name: &[u8]) -> bool
    ensures { result ≡ is_node_named name.now (node_of tree.now) }
{
    compare_to(tree, name).is_eq()
}

/// Returns the index of the first of these trees with the name, compared by bytes, or `None` if no tree has it.
///
/// It compares names in turn up to that one. It allocates no memory.
fn place_of(trees: &[Tree], name: &[u8]) -> Option<usize>
    ensures value { result ≡ position (λ t. is_node_named name.now (node_of t)) trees.now }
    ensures none { IsNone result
        → All (λ t. is_node_named name.now (node_of t) ≡ false) trees.now }
{
    trees.iter().position(|tree| has_name(tree, name))
}

/// Removes the count and the id of a node.
fn clear(tree: &mut Tree)
    ensures name { (out-Tree tree.new).name ≡ (out-Tree tree.old).name }
    ensures children { (out-Tree tree.new).children ≡ (out-Tree tree.old).children }
    ensures id { (out-Tree tree.new).id ≡ null_id (id_kind (out-Tree tree.old).id) }
    ensures count { (out-Tree tree.new).num_entries ≡ None }
{
    tree.id = tree.id.kind().null();
    tree.num_entries = None;
}

/// Invalidates a path below a node with these children.
#[cycle(nodes)]
fn invalidate_below(children: &mut Vec<Tree>, path: &[u8])
    ensures { nodes_from (map node_of children.new.items)
        ≡ invalidated_below path.now (slash_of path.now)
        (nodes_from (map node_of children.old.items)) }
{
    let Some(slash) = slash_of(path) else {
        if let Some(place) = place_of(children, path) {
            children.remove(place);
        }
        return;
    };
    let (name, _) = path.split_at(slash);
    let (_, rest) = path.split_at(slash + 1);
    if let Some(place) = place_of(children, name) {
        invalidate(&mut children[place], rest);
    }
}

/// Invalidates a path in a cache tree, as an edit of the entry with that path requires (gitformat-index, "Cache tree").
///
/// - The root and the directories of the path lose their counts and their ids, which become null.
/// - If the path is itself that of a directory, the directory is removed with everything below it.
/// - Everything else stays unchanged.
///
/// Of siblings with equal names, the first is used. The traversal stops at a directory that the tree lacks. A tree that
/// a file can store stays one.
///
/// It allocates no memory, and compares names only along the path. The depth of its calls is at most that of the tree.
#[cycle(nodes)]
pub fn invalidate(tree: &mut Tree, path: &[u8])
    ensures is { node_of tree.new ≡ invalidated path.now (node_of tree.old) }
    ensures counts { (most : ℕ) → CountsAtMost most (node_of tree.old)
        → CountsAtMost most (node_of tree.new) }
    ensures storable { (kind : Kind) → IsStorableTree kind (node_of tree.old)
        → IsStorableTree kind (node_of tree.new) }
{
    clear(tree);
    invalidate_below(&mut tree.children, path);
}
