//! Groups of parts that are drawn as one box.

ghost use Rattle.std.specs.Prelude.{◌≡◌, ◌∷◌, IfOk};
ghost use Rattle.view_layout.specs.Groups.{go_together, group_shade, grouped, stretched, reaches_over};
ghost use Rattle.view_layout.specs.GroupSteps.{GrowTo};

use crate::shade::{Shade, shade_of};
use crate::{Part, What};
use std::alloc::{AllocError, Global};

/// Returns the shade of the group that a part begins or belongs to.
fn group_shade(what: What) -> Shade
    ensures { result ≡ group_shade what }
{
    match what {
        What::Padding => Shade::Entry,
        What::ExtensionContent { .. } => Shade::ExtensionHead,
        _ => shade_of(what),
    }
}

/// Returns whether a group extends over the part after it.
fn reaches_over(shade: Shade, what: What) -> bool
    ensures { result ≡ reaches_over shade what }
{
    match shade {
        Shade::Entry => matches!(what, What::Entry { .. } | What::Padding),
        Shade::ExtensionHead => matches!(what, What::ExtensionContent { .. }),
        _ => false,
    }
}

/// Returns a part extended over the next one.
fn extend_part(part: Part, next: Part) -> Part
    ensures { result ≡ stretched part next }
{
    let len = part.len.saturating_add(next.len);
    Part { len, ..part }
}

/// Returns whether a part and the next one are drawn as one box.
fn go_together(what: What, next: What) -> bool
    ensures { result ≡ go_together what next }
{
    reaches_over(group_shade(what), next)
}

/// Returns the current group after the next part. It is the last group extended over the part, if the two go together.
/// Else the last group is appended to the others, and the part is the current group.
fn grow(groups: &mut Vec<Part>, last: Part, next: Part) -> Result<Part, AllocError>
    ensures { IfOk result (GrowTo groups.old.items last next groups.new.items) }
{
    if go_together(last.what, next.what) {
        return Ok(extend_part(last, next));
    }
    groups.push(last)?;
    Ok(next)
}

/// Returns the groups of a part and those after it: each run of parts that go together as one.
fn grouped_behind(alloc: Global, first: Part, others: &[Part]) -> Result<Vec<Part>, AllocError>
    ensures { IfOk result (λ groups. groups.items ≡ grouped (first ∷ others.now)) }
{
    let mut groups = Vec::new(alloc);
    let mut last = first;
    for next in others {
        last = grow(&mut groups, last, *next)?;
    }
    groups.push(last)?;
    Ok(groups)
}

/// Returns the groups of parts: each run of parts that go together as one.
pub fn group_parts(alloc: Global, parts: &[Part]) -> Result<Vec<Part>, AllocError>
    ensures { IfOk result (λ groups. groups.items ≡ grouped parts.now) }
{
    match parts.split_first() {
        Some((first, others)) => grouped_behind(alloc, *first, others),
        None => Ok(Vec::new(alloc)),
    }
}
