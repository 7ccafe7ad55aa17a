//! Changes of the parts of an index in memory, with the extensions about its entries.

ghost use Rattle.std.specs.Prelude.{◌≡◌};
ghost use Rattle.index_edit.specs.PartsUpdates.{AppliesParts, ResolvesParts, StagesParts, UnstagesParts};
ghost use Rattle.index_edit.specs.PartsUpdates.{with_kept, without_kept};

use crate::kept::Kept;
use crate::{single, update};
use entry_edit::change::{ApplyError, Change};
use entry_edit::error::Error;
use entry_edit::stage::Displaced;
use entry_list::Pathless;
use index_model::Parts;
use index_model::extension::Outcome;
use index_parts::check::ComponentCheck;

/// Takes out the extensions that are updated when entries change.
fn take_kept(extensions: &mut Outcome) -> Kept
    ensures tree { result.tree ≡ extensions.old.tree }
    ensures undo { result.undo ≡ extensions.old.resolve_undo }
    ensures untracked { result.untracked ≡ extensions.old.untracked }
    ensures monitor { result.monitor ≡ extensions.old.fs_monitor }
    ensures others { extensions.new ≡ without_kept extensions.old }
{
    Kept {
        tree: extensions.tree.take(),
        undo: extensions.resolve_undo.take(),
        untracked: extensions.untracked.take(),
        monitor: extensions.fs_monitor.take(),
    }
}

/// Puts the updated extensions back.
fn put_kept(extensions: &mut Outcome, kept: Kept)
    ensures { extensions.new ≡ with_kept kept extensions.old }
{
    extensions.tree = kept.tree;
    extensions.resolve_undo = kept.undo;
    extensions.untracked = kept.untracked;
    extensions.fs_monitor = kept.monitor;
}

/// Applies changes one after another, all or none. The value of the parts is then `updated`. If a file could store it,
/// one still can.
///
/// The errors are those of [`update`](crate::update::update). The parts are then unchanged.
pub fn apply<C: ComponentCheck>(
    parts: &mut Parts,
    check: &C,
    changes: &[Change<'_>],
) -> Result<(), ApplyError>
    ensures { AppliesParts (C.refusal check.now) changes.now parts.old parts.new result }
{
    let mut kept = take_kept(&mut parts.extensions);
    let result = update::update(
        &mut parts.entries,
        &mut parts.path_backing,
        &mut kept,
        check,
        parts.object_hash,
        changes,
    );
    put_kept(&mut parts.extensions, kept);
    result?;
    Ok(())
}

/// Stages an entry at a path, and returns the entries that it replaced. The value of the parts is then `updated` by
/// this change. If a file could store it, one still can.
///
/// The errors are those of [`stage`](crate::single::stage). The parts are then unchanged.
pub fn stage<C: ComponentCheck>(
    parts: &mut Parts,
    check: &C,
    entry: Pathless,
    path: &[u8],
) -> Result<Displaced, Error>
    ensures { StagesParts (C.refusal check.now) entry path.entry parts.old parts.new result }
{
    let mut kept = take_kept(&mut parts.extensions);
    let made = single::stage(
        &mut parts.entries,
        &mut parts.path_backing,
        &mut kept,
        check,
        parts.object_hash,
        entry,
        path,
    );
    put_kept(&mut parts.extensions, kept);
    let told = made?;
    Ok(told)
}

/// Replaces all stages of a path by one merged entry, whatever stage its flags have. Result and errors are those of
/// [`stage`].
pub fn resolve<C: ComponentCheck>(
    parts: &mut Parts,
    check: &C,
    entry: Pathless,
    path: &[u8],
) -> Result<Displaced, Error>
    ensures { ResolvesParts (C.refusal check.now) entry path.entry parts.old parts.new result }
{
    let mut kept = take_kept(&mut parts.extensions);
    let solved = single::resolve(
        &mut parts.entries,
        &mut parts.path_backing,
        &mut kept,
        check,
        parts.object_hash,
        entry,
        path,
    );
    put_kept(&mut parts.extensions, kept);
    let told = solved?;
    Ok(told)
}

/// Removes the entries at a path, whatever their stage, and returns how many there were. The value of the parts is then
/// `updated` by this change. If a file could store it, one still can.
///
/// The errors are those of [`unstage`](crate::single::unstage). The parts are then unchanged.
pub fn unstage(parts: &mut Parts, path: &[u8]) -> Result<usize, Error>
    ensures { UnstagesParts path.entry parts.old parts.new result }
{
    let mut kept = take_kept(&mut parts.extensions);
    let gone = single::unstage(&mut parts.entries, &parts.path_backing, &mut kept, path);
    put_kept(&mut parts.extensions, kept);
    let count = gone?;
    Ok(count)
}
