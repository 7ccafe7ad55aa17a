//! Applies one change to an index, with the extensions about its entries.

ghost use Rattle.std.specs.Prelude.{◌≡◌, ◌∷◌, [], IfOk};
ghost use Rattle.entry_edit.specs.Edits.{merged};
ghost use Rattle.entry_edit.specs.EntryEdits.{StageCause, StagesEntry};
ghost use Rattle.entry_edit.specs.Wholes.{WholeDirectoryCause};
ghost use Rattle.entry_edit.specs.declared.change.Change.TheVariants.{Stage, Unstage};
ghost use Rattle.entry_list.specs.Record.{records_in};
ghost use Rattle.index_edit.specs.EntryUpdates.{KeepsOne, ResolvesOne, StagesOne, TakesPath, UnstagesOne};
ghost use Rattle.index_edit.specs.UpdateSteps.{IsUndoneAfter, ReportsRemoved, ReportsStaged};

use crate::dirty::monitor_after;
use crate::kept::Kept;
use crate::losing::record_lost;
use crate::recording::are_rising;
use crate::update::{copy_of, renew};
use entry_edit::change::Change;
use entry_edit::error::Error;
use entry_edit::resolve::to_stage_zero;
use entry_edit::stage::{Displaced, check_stage, settle};
use entry_edit::wholes::lies_in_whole;
use entry_list::slice::EntrySlice;
use entry_list::{Entry, PathStorage, Pathless};
use ext_small::FsMonitor;
use ext_small::resolve_undo::Paths;
use index_parts::check::ComponentCheck;
use index_parts::hash::Kind;
use std::alloc::{AllocError, Global};

/// Returns resolve-undo after a change of these entries. The error is an allocation failure.
fn undo_after(
    entries: &[Entry],
    storage: &PathStorage,
    undo: &Option<Paths>,
    change: &Change<'_>,
) -> Result<Option<Paths>, AllocError>
    ensures { IfOk result (IsUndoneAfter (change.now ∷ []) storage.now.items entries.now undo.now) }
{
    let mut undo = copy_of(undo)?;
    let rising = are_rising(&undo);
    let alloc = *storage.allocator();
    let there = EntrySlice::new(entries, storage);
    record_lost(&mut undo, alloc, &there, change, rising)?;
    Ok(undo)
}

/// Returns a copy of the entries. The error is an allocation failure.
fn copy_entries(alloc: Global, entries: &[Entry]) -> Result<Vec<Entry>, AllocError>
    ensures { IfOk result (λ made. made.items ≡ entries.now) }
{
    let mut made: Vec<Entry> = Vec::with_capacity(alloc, entries.len())?;
    made.extend_from_slice(entries)?;
    Ok(made)
}

/// The entries that an entry replaced, and the monitor's answer after that.
struct Settled {
    told: Displaced,
    monitor: Option<FsMonitor>,
}

/// How many entries were removed from a path, and the monitor's answer about the others.
struct Cut {
    count: usize,
    monitor: Option<FsMonitor>,
}

/// Inserts an entry. If there is a monitor's answer, it changes a copy of the entries, so that an error leaves them
/// unchanged.
fn settle_watched(
    entries: &mut Vec<Entry>,
    storage: &mut PathStorage,
    monitor: &Option<FsMonitor>,
    entry: Pathless,
    path: &[u8],
) -> Result<Settled, AllocError>
    ensures staged { StagesEntry entry path.now storage.old entries.old storage.new entries.new
        result }
    ensures settled { IfOk result (ReportsStaged entry path.entry storage.old entries.old
        monitor.now) }
{
    if monitor.is_none() {
        return Ok(Settled {
            told: settle(entries, storage, entry, path)?,
            monitor: None,
        });
    }
    let len = storage.len();
    let mut edited = copy_entries(*storage.allocator(), entries)?;
    let told = settle(&mut edited, storage, entry, path)?;
    let made = monitor_after(
        *storage.allocator(),
        &EntrySlice::new(entries, storage),
        &EntrySlice::new(&edited, storage),
        monitor,
        &[Change::Stage { entry, path }],
    );
    match made {
        Ok(monitor) => {
            *entries = edited;
            Ok(Settled { told, monitor })
        }
        Err(e) => {
            storage.truncate(len);
            Err(e)
        }
    }
}

/// Removes the entries at a path. If there is a monitor's answer, it changes a copy of the entries, so that an error
/// leaves them unchanged.
fn remove_watched(
    entries: &mut Vec<Entry>,
    storage: &PathStorage,
    monitor: &Option<FsMonitor>,
    path: &[u8],
) -> Result<Cut, AllocError>
    ensures taken { TakesPath path.now storage.now entries.old entries.new result }
    ensures told { IfOk result (ReportsRemoved path.entry storage.now entries.old monitor.now) }
{
    if monitor.is_none() {
        return Ok(Cut {
            count: entry_edit::unstage::unstage(entries, storage, path),
            monitor: None,
        });
    }
    let mut edited = copy_entries(*storage.allocator(), entries)?;
    let count = entry_edit::unstage::unstage(&mut edited, storage, path);
    let monitor = monitor_after(
        *storage.allocator(),
        &EntrySlice::new(entries, storage),
        &EntrySlice::new(&edited, storage),
        monitor,
        &[Change::Unstage { path }],
    )?;
    *entries = edited;
    Ok(Cut { count, monitor })
}

/// Stages an entry at a path, and updates the extensions about the entries.
///
/// The entries, the storage, the result and the errors are those of [`stage`](entry_edit::stage::stage). The extensions
/// are those that [`update`](crate::update::update) leaves after this one change. After an error everything is
/// unchanged. This is guaranteed if the entries strictly increase and all paths are in the storage. Resolve-undo is
/// copied once. So are the entries if there is a monitor's answer.
pub fn stage<C: ComponentCheck>(
    entries: &mut Vec<Entry>,
    storage: &mut PathStorage,
    kept: &mut Kept,
    check: &C,
    kind: Kind,
    entry: Pathless,
    path: &[u8],
) -> Result<Displaced, Error>
    ensures reason { StageCause (C.refusal check.now) kind entry path.now storage.old entries.old
        result }
    ensures made { StagesOne entry path.entry storage.old entries.old storage.new entries.new
        result }
    ensures kept { KeepsOne (Stage entry path.entry) storage.old entries.old kept.old kept.new
        result }
{
    let among = EntrySlice::new(entries, storage);
    check_stage(check, kind, &among, storage.len(), entry, path)?;
    let change = Change::Stage { entry, path };
    let undo = undo_after(entries, storage, &kept.undo, &change)?;
    let Settled { told, monitor } = settle_watched(entries, storage, &kept.monitor, entry, path)?;
    renew(kept, undo, monitor, &[change]);
    Ok(told)
}

/// Replaces all stages of a path by one merged entry, whatever stage its flags have, and updates the extensions about
/// the entries. Result, errors and cost are those of [`stage`].
pub fn resolve<C: ComponentCheck>(
    entries: &mut Vec<Entry>,
    storage: &mut PathStorage,
    kept: &mut Kept,
    check: &C,
    kind: Kind,
    entry: Pathless,
    path: &[u8],
) -> Result<Displaced, Error>
    ensures reason { StageCause (C.refusal check.now) kind (merged entry) path.now storage.old
        entries.old
        result }
    ensures made { ResolvesOne entry path.entry storage.old entries.old storage.new entries.new
        result }
    ensures kept { KeepsOne (Stage (merged entry) path.entry) storage.old entries.old kept.old
        kept.new
        result }
{
    stage(
        entries,
        storage,
        kept,
        check,
        kind,
        to_stage_zero(entry),
        path,
    )
}

/// Removes the entries at a path, whatever their stage, updates the extensions about the entries, and returns how many
/// were removed.
///
/// The entries are then as [`unstage`](entry_edit::unstage::unstage) leaves them. The extensions are those that
/// [`update`](crate::update::update) leaves after this one change. This is guaranteed if the entries strictly increase.
/// Resolve-undo is copied once.
///
/// The error is that the path is in a directory that a sparse index has as one entry, or an allocation failure.
/// Everything is then unchanged.
pub fn unstage(
    entries: &mut Vec<Entry>,
    storage: &PathStorage,
    kept: &mut Kept,
    path: &[u8],
) -> Result<usize, Error>
    ensures reason { WholeDirectoryCause path.now (records_in storage.now.items entries.old.items) result }
    ensures made { UnstagesOne path.entry storage.now entries.old entries.new result }
    ensures kept { KeepsOne (Unstage path.entry) storage.now entries.old kept.old kept.new result }
{
    if lies_in_whole(&EntrySlice::new(entries, storage), path) {
        return Err(Error::InWholeDirectory);
    }
    let change = Change::Unstage { path };
    let undo = undo_after(entries, storage, &kept.undo, &change)?;
    let Cut { count, monitor } = remove_watched(entries, storage, &kept.monitor, path)?;
    renew(kept, undo, monitor, &[change]);
    Ok(count)
}
