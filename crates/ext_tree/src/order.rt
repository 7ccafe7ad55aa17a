//! Compares nodes by their names.

ghost use Rattle.std.specs.Prelude.{◌≡◌};
ghost use Rattle.std.specs.Cmp.Lexicographic.{slice_cmp};
ghost use Rattle.std.specs.Ordering.{nat_cmp};
ghost use Rattle.ext_tree.specs.Tree.{name_cmp, node_name, node_of};

use super::Tree;
use std::cmp::Ordering;

/// Returns the order of two nodes by the bytes of their names.
pub fn compare_names(a: &Tree, b: &Tree) -> Ordering
    ensures { result ≡ name_cmp (node_of a.now) (node_of b.now) }
{
    compare_to(a, b.name.as_slice())
}

/// Returns the order of a node's name and `name`, by their bytes.
pub fn compare_to(tree: &Tree, name: &[u8]) -> Ordering
    ensures { result ≡ slice_cmp nat_cmp (node_name (node_of tree.now)) name.now }
{
    tree.name.as_slice().cmp(&name)
}
