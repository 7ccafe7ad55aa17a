//! Check of a path, if the path of an entry before it is known to be valid.

ghost use Rattle.std.specs.Prelude.{◌≡◌, ◌⊎◌, ◌<◌, ◌-◌, ◌==◌, None, IfSome, count_by, length, take};
ghost use Rattle.std.specs.List.{HoldsAt};
ghost use Rattle.tree_encode.specs.Refusals.{IsMisnamed, IsTreePath};
ghost use Rattle.tree_encode.specs.SharedSteps.{IsCheckPassed};

use crate::error::NameFault;
use crate::names::fault_of;
use entry_list::paths::shared_len;
use index_parts::check::ComponentCheck;
use index_parts::object::tree::EntryKind;

/// Returns the length in bytes of the directories that both paths go through. It includes the last slash, after which
/// `path` has more bytes. It is 0 if there are no such directories.
fn shared_front(before: &[u8], path: &[u8]) -> usize
    ensures same { take result path.now ≡ take result before.now }
    ensures slash { (result ≡ 0) ⊎ ((result < length path.now)
        × HoldsAt (λ b. b ≡ 47) path.now (result - 1)) }
{
    let mut len = shared_len(before, path).min(path.len().saturating_sub(1));
    while len > 0 {
        if path[len - 1] == b'/' {
            return len;
        }
        len -= 1;
    }
    0
}

/// Returns the number of slashes in `bytes`.
fn slashes(bytes: &[u8]) -> usize
    ensures { result ≡ count_by (λ b. b == 47) bytes.now }
{
    bytes.iter().filter(|b| **b == b'/').count()
}

/// Returns the error in the names of `path`, or `None` if there is none. `path` may have at most `levels` slashes.
///
/// `before` is empty or a valid path. Names in the directories that both paths go through aren't checked again.
pub(crate) fn fault_behind<C: ComponentCheck>(
    check: &C,
    levels: u32,
    kind: EntryKind,
    before: &[u8],
    path: &[u8],
) -> Option<NameFault>
    requires { IsCheckPassed (C.refusal check.now) levels before.now }
    ensures none { result ≡ None → IsTreePath (C.refusal check.now) levels kind path.now }
    ensures some { IfSome result (IsMisnamed (C.refusal check.now) levels kind path.now) }
{
    let (front, rest) = path.split_at(shared_front(before, path));
    fault_of(check, levels - slashes(front) as u32, kind, rest)
}
