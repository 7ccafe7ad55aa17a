//! Division of a path into names, and the check of the names.

ghost use Rattle.std.specs.Prelude.{◌≡◌, ◌≢◌, ℕ, All, None, IfSome, drop};
ghost use Rattle.std.specs.Option.{option_map};
ghost use Rattle.index_parts.specs.NameCheck.{refusal_as};
ghost use Rattle.tree_encode.specs.Directory.{IsPathComponent};
ghost use Rattle.tree_encode.specs.Refusals.{IsBadName, IsMisnamed, IsTreePath};
ghost use Rattle.tree_encode.specs.WritingSteps.{IsComponent, IsPathSplit};

use crate::error::NameFault;
use crate::leaf::is_tree;
use index_parts::check::{ComponentCheck, refusal_of};
use index_parts::object::tree::EntryKind;

/// A component of a path.
#[derive(Clone, Copy)]
pub(crate) struct Component<'a> {
    /// The name, without the slash after it.
    pub(crate) name: &'a [u8],
    /// The name with the slash after it, if there is one.
    pub(crate) shown: &'a [u8],
}

/// Returns `path` without its first `prefix_len` bytes.
pub(crate) fn tail_of(path: &[u8], prefix_len: usize) -> &[u8]
    ensures { result.now ≡ drop prefix_len path.now }
{
    let (_, tail) = path.split_at(prefix_len.min(path.len()));
    tail
}

/// Returns the first component of `tail`.
pub(crate) fn component_of(tail: &[u8]) -> Component<'_>
    ensures { IsComponent tail.now result.name.now result.shown.now }
{
    match tail.iter().position(|b| *b == b'/') {
        Some(at) => {
            let (name, _) = tail.split_at(at);
            let (shown, _) = tail.split_at(at + 1);
            Component { name, shown }
        }
        None => Component {
            name: tail,
            shown: tail,
        },
    }
}

/// Returns the first name of a path, and what follows the slash after it, if there is one.
fn split_name(path: &[u8]) -> (&[u8], Option<&[u8]>)
    ensures name { All (λ b. b ≢ 47) result.0.now }
    ensures parts { IsPathSplit path.now result.0.now (option_map (λ r. r.now) result.1) }
{
    match path.iter().position(|b| *b == b'/') {
        Some(at) => {
            let (name, _) = path.split_at(at);
            let (_, rest) = path.split_at(at + 1);
            (name, Some(rest))
        }
        None => (path, None),
    }
}

/// Returns the error in a name without slashes, or `None` if an entry of kind `kind` can have the name.
fn name_fault<C: ComponentCheck>(check: &C, name: &[u8], kind: EntryKind) -> Option<NameFault>
    requires { All (λ b. b ≢ 47) name.now }
    ensures name { result ≡ None → IsPathComponent name.now }
    ensures passes { result ≡ None → refusal_as (C.refusal check.now) name.now kind ≡ None }
    ensures some { IfSome result (IsBadName (C.refusal check.now) name.now kind) }
{
    if name.is_empty() {
        return Some(NameFault::Empty);
    }
    if !name.iter().all(|b| *b != 0) {
        return Some(NameFault::Nul);
    }
    if let Some(number) = refusal_of(check, name, kind) {
        return Some(NameFault::Refused(number));
    }
    None
}

/// Returns the error in the last name of a path, after which there is no slash. Returns `None` if there is no error.
fn last_fault<C: ComponentCheck>(check: &C, kind: EntryKind, name: &[u8]) -> Option<NameFault>
    requires { All (λ b. b ≢ 47) name.now }
    ensures none { result ≡ None
        → (levels : ℕ) → IsTreePath (C.refusal check.now) levels kind name.now }
    ensures some { IfSome result
        (λ f. (levels : ℕ) → IsMisnamed (C.refusal check.now) levels kind name.now f) }
{
    if let Some(fault) = name_fault(check, name, kind) {
        return Some(fault);
    }
    if is_tree(kind) {
        return Some(NameFault::NoSlash);
    }
    None
}

/// Returns the error in the names of `path`, or `None` if there is none. `path` is the rest of a path after a prefix,
/// and may have at most `levels` slashes.
pub(crate) fn fault_of<C: ComponentCheck>(
    check: &C,
    levels: u32,
    kind: EntryKind,
    path: &[u8],
) -> Option<NameFault>
    ensures none { result ≡ None → IsTreePath (C.refusal check.now) levels kind path.now }
    ensures some { IfSome result (IsMisnamed (C.refusal check.now) levels kind path.now) }
{
    let (name, behind) = split_name(path);
    let Some(rest) = behind else {
        return last_fault(check, kind, name);
    };
    if let Some(fault) = name_fault(check, name, EntryKind::Tree) {
        return Some(fault);
    }
    if levels == 0 {
        return Some(NameFault::TooDeep);
    }
    if is_tree(kind) && rest.is_empty() {
        return None;
    }
    fault_of(check, levels - 1, kind, rest)
}
