//! Removal of the counts of a rebuilt cached tree that the old cached tree doesn't confirm.

ghost use Rattle.std.specs.Prelude.{◌≡◌, ℕ, List, IsTrue, false};
ghost use Rattle.std.specs.Option.{option_map};
ghost use Rattle.ext_tree.specs.Tree.{node_of};
ghost use Rattle.ext_tree.specs.declared.Tree.TheViews.{out-Tree};
ghost use Rattle.tree_encode.specs.Kept.{Becomes, IsConfirmed, KeepsCounts};
ghost use Rattle.tree_encode.specs.KeptSteps.{own_spot};

use crate::tree_ids::{child_of, is_given};
use ext_tree::Tree;
use index_parts::hash::Kind;

/// Returns whether `made` has a count, and `old` has the same count and id.
fn is_confirmed(made: &Tree, old: Option<&Tree>) -> bool
    ensures yes { IsTrue result → (names : List (List ℕ)) → IsConfirmed names
        (option_map (λ t. node_of t.now) old.entry) (own_spot names made.now) }
    ensures no { result ≡ false → (names : List (List ℕ)) → IsConfirmed names
        (option_map (λ t. node_of t.now) old.entry) (own_spot names made.now) → ⊥ }
{
    let Some(count) = made.num_entries else {
        return false;
    };
    is_given(old, &made.id, count)
}

/// Removes the count from `made`, unless `old` has the same count and id. Without a count, `made` has the null id.
fn keep_count(kind: Kind, made: &mut Tree, old: Option<&Tree>)
    ensures name { (out-Tree made.new).name ≡ (out-Tree made.old).name }
    ensures children { (out-Tree made.new).children ≡ (out-Tree made.old).children }
    ensures spot { (names : List (List ℕ)) → Becomes kind names
        (option_map (λ t. node_of t.now) old.entry)
        (own_spot names made.old) (own_spot names made.new) }
{
    if is_confirmed(made, old) {
        return;
    }
    made.id = kind.null();
    made.num_entries = None;
}

/// Removes the count from each node of `made`, except the nodes that `old` has too, with the same names, id and count.
/// Both are cached trees (TREE extension), and `made` was made from entries.
///
/// A node without a count is invalid, and has the null id. If siblings in `old` aren't in the order of their names,
/// nodes that `old` has may lose their counts too.
pub fn keep_counts(kind: Kind, made: &mut Tree, old: Option<&Tree>)
    ensures { (names : List (List ℕ)) → KeepsCounts kind names
        (option_map (λ t. node_of t.now) old.entry) (node_of made.old) (node_of made.new) }
{
    for child in made.children.iter_mut() {
        let old = child_of(old, child.name.as_slice());
        keep_counts(kind, child, old);
    }
    keep_count(kind, made, old);
}
