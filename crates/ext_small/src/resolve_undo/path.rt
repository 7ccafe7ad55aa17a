//! Reads a path and its stages from the bytes.

ghost use Rattle.std.specs.Prelude.{◌≡◌};
ghost use Rattle.std.specs.Option.{option_map};
ghost use Rattle.ext_small.specs.ResolveUndoSteps.{mode_at, stage_at, resolve_path_at, lent_path};

use super::Stage;
use super::octal::mode_of;
use index_parts::hash::Kind;
use index_parts::read;

/// A path that borrows its name.
#[derive(Clone, Copy)]
pub(super) struct LentPath<'a> {
    pub(super) name: &'a [u8],
    pub(super) stages: [Option<Stage>; 3],
}

/// Returns the mode before a NUL, and the bytes after it.
#[tactic(auto, unfolding(crate::specs::ResolveUndoSteps::mode_at))]
fn split_mode(bytes: &[u8]) -> Option<(u32, &[u8])>
    ensures { option_map (λ x. (x.0, x.1.now)) result ≡ mode_at bytes.now }
{
    let (text, rest) = read::up_to(bytes, 0)?;
    let mode = mode_of(text)?;
    Some((mode, rest))
}

/// Returns the stage with this mode, and the bytes after its id. A mode of 0 has no id.
#[tactic(auto, unfolding(crate::specs::ResolveUndoSteps::stage_at))]
fn stage_of(kind: Kind, mode: u32, bytes: &[u8]) -> Option<(Option<Stage>, &[u8])>
    ensures { option_map (λ x. (x.0, x.1.now)) result ≡ stage_at kind mode bytes.now }
{
    if mode == 0 {
        return Some((None, bytes));
    }
    let (id, rest) = read::id(bytes, kind)?;
    Some((Some(Stage { mode, id }), rest))
}

/// Returns the path at the start of the bytes, and the bytes after it.
#[tactic(auto, unfolding(crate::specs::ResolveUndoSteps::resolve_path_at))]
pub(super) fn path_of(kind: Kind, bytes: &[u8]) -> Option<(LentPath<'_>, &[u8])>
    ensures { option_map (λ x. (lent_path x.0, x.1.now)) result ≡ resolve_path_at kind bytes.now }
{
    let (name, rest) = read::up_to(bytes, 0)?;
    let (base, rest) = split_mode(rest)?;
    let (ours, rest) = split_mode(rest)?;
    let (theirs, rest) = split_mode(rest)?;
    let (one, rest) = stage_of(kind, base, rest)?;
    let (two, rest) = stage_of(kind, ours, rest)?;
    let (three, rest) = stage_of(kind, theirs, rest)?;
    let stages = [one, two, three];
    Some((LentPath { name, stages }, rest))
}
