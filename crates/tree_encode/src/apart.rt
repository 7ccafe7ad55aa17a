//! Checks for a path that is inside another path.

ghost use Rattle.std.specs.Prelude.{◌≡◌, ◌≤◌, ◌⊎◌, ◌++◌, [], ◌∷◌, None, IfSome, List, true, false, All, take, drop};
ghost use Rattle.std.specs.Prelude.{length};
ghost use Rattle.tree_encode.specs.ApartSteps.{EndsWith};
ghost use Rattle.tree_encode.specs.Refusals.{HasPathPrefix, LiesIn};
ghost use Rattle.tree_encode.specs.Staged.{staged_of};
ghost use Rattle.tree_encode.specs.declared.leaf.Leaf.{Leaf};

use crate::leaf::{Leaf, is_tree};

/// Returns whether `path` is inside `leaf`. If the leaf is a sparse directory, `path` begins with its path. Otherwise
/// `path` begins with its path and a slash.
fn lies_in(path: &[u8], leaf: &Leaf<'_>) -> bool
    ensures yes { result ≡ true → LiesIn path.now (staged_of leaf.now) }
    ensures no { result ≡ false → LiesIn path.now (staged_of leaf.now) → ⊥ }
{
    if !path.starts_with(leaf.path) {
        return false;
    }
    if is_tree(leaf.kind) {
        return true;
    }
    let (_, rest) = path.split_at(leaf.path.len());
    rest.starts_with(b"/")
}

/// Returns how many of `files` remain after the last ones are dropped, up to one whose path is a prefix of `path`.
pub(crate) fn beginnings_of(files: &[Leaf<'_>], path: &[u8]) -> usize
    ensures within { result ≤ length files.now }
    ensures taken { All (λ f. HasPathPrefix path.now f.path.now → ⊥) (drop result files.now) }
    ensures last { (result ≡ 0)
        ⊎ EndsWith (take result files.now) (λ f. HasPathPrefix path.now f.path.now) }
{
    let mut count = files.len();
    while count > 0 {
        if path.starts_with(files[count - 1].path) {
            return count;
        }
        count -= 1;
    }
    0
}

/// Returns the last of `files` if `path` is inside it, and otherwise `None`.
pub(crate) fn last_above<'a>(files: &[Leaf<'a>], path: &[u8]) -> Option<Leaf<'a>>
    ensures some { IfSome result (λ f. EndsWith files.now (λ l. l ≡ f)
        × LiesIn path.now (staged_of f)) }
    ensures none { result ≡ None → (init : List Leaf) (last : Leaf)
        → files.now ≡ init ++ last ∷ [] → LiesIn path.now (staged_of last) → ⊥ }
{
    let Some(file) = files.last().copied() else {
        return None;
    };
    if !lies_in(path, &file) {
        return None;
    }
    Some(file)
}
