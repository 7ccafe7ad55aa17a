//! Orders the children of a node as git writes them: shorter names first.

ghost use Rattle.std.specs.Prelude.{◌≡◌, ◌≤◌, All};
ghost use Rattle.ext_tree.specs.GitOrder.{has_len, name_len};
ghost use Rattle.ext_tree.specs.Tree.{node_of};

use super::Tree;

/// The length from which on names count as equally long.
pub(super) const LONG_NAME: usize = 256;

/// Returns the length of a node's name, at most [`LONG_NAME`].
fn name_len(tree: &Tree) -> usize
    ensures { result ≡ name_len (node_of tree.now) }
{
    tree.name.as_slice().len().min(LONG_NAME)
}

/// Returns the smaller of `next` and `len` if `len` isn't less than `least`, and `next` otherwise.
fn nearer(least: usize, next: usize, len: usize) -> usize
    requires { least ≤ next }
    ensures least { least ≤ result }
    ensures next { result ≤ next }
    ensures len { least ≤ len → result ≤ len }
{
    if least <= len && len < next {
        len
    } else {
        next
    }
}

/// Returns whether a node's name has this length. It returns true if no length is given.
pub(super) fn has_len(tree: &Tree, len: Option<usize>) -> bool
    ensures { result ≡ has_len len (node_of tree.now) }
{
    match len {
        Some(len) => name_len(tree) == len,
        None => true,
    }
}

/// Returns the least length of these nodes' names that isn't less than `least`, or 257 if there is none.
pub(super) fn next_len(trees: &[Tree], least: usize) -> usize
    requires { least ≤ 257 }
    ensures least { least ≤ result }
    ensures most { result ≤ 257 }
    ensures none_between { All (λ t. least ≤ name_len (node_of t) → result ≤ name_len (node_of t))
        trees.now }
{
    let mut next = LONG_NAME + 1;
    for tree in trees {
        next = nearer(least, next, name_len(tree));
    }
    next
}
