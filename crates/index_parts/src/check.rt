//! The check of the names that are components of a path.

ghost use Rattle.std.specs.Prelude.{◌≡◌, ℕ, List, Bool, false, Option, Some, None, IfOk, IfErr};
ghost use Rattle.index_parts.specs.NameCheck.{refusal_as};

use crate::object::tree::EntryKind;

/// A check of the names that may be components of a path. Its answer depends only on the check's value and the
/// arguments.
pub trait ComponentCheck {
    // The number with which the check rejects a name, or None if it accepts the name. The flag is whether the name is a
    // symbolic link's.
    ghost refusal: { Self → List ℕ → Bool → Option ℕ };

    /// Returns `Ok` if the name may be a component of a path. `symlink` is whether the name is that of a symbolic link.
    /// An error is the check's own number of what is wrong with the name.
    fn check(&self, name: &[u8], symlink: bool) -> Result<(), u32>
        ensures passes { IfOk result (λ _. refusal self.now name.now symlink ≡ None) }
        ensures refuses { IfErr result (λ n. refusal self.now name.now symlink ≡ Some n) };
}

/// Returns the number with which the check rejects a name in a tree, or None if it accepts the name. A link's name is
/// checked first as any other, and then as a symbolic link's.
pub fn refusal_of<C: ComponentCheck>(check: &C, name: &[u8], kind: EntryKind) -> Option<u32>
    ensures { result ≡ refusal_as (C.refusal check.now) name.now kind }
{
    if let Err(number) = check.check(name, false) {
        return Some(number);
    }
    if kind == EntryKind::Link
        && let Err(number) = check.check(name, true)
    {
        return Some(number);
    }
    None
}
