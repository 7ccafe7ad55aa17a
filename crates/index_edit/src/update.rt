//! Applies several changes to an index, all or none, with the extensions about its entries.

ghost use Rattle.std.specs.Prelude.{◌≡◌, ◌<◌, IfOk, OnOk, length};
ghost use Rattle.entry_edit.specs.EntryEdits.{AppliesAll, FirstRejectedCause};
ghost use Rattle.index_edit.specs.EntryUpdates.{KeepsExtensions};
ghost use Rattle.index_edit.specs.Invalidated.{CountsNoMore, InvalidatesAll, UnlistsAll};
ghost use Rattle.index_edit.specs.RecordingSteps.{AreRisingIf};
ghost use Rattle.index_edit.specs.Undone.{undo_paths};
ghost use Rattle.index_edit.specs.UpdateSteps.{AppliesNext, IsKnownAt, RecordsNext, UpdatesKept, UpdatesEntries};
ghost use Rattle.index_edit.specs.UpdateSteps.{UpdatesWatched};

use crate::dirty::monitor_after;
use crate::invalidating::{invalidate_all, unlist_all};
use crate::kept::Kept;
use crate::losing::record_lost;
use crate::recording::are_rising;
use entry_edit::ahead::Ahead;
use entry_edit::apply::{apply_one, clear_after, pass};
use entry_edit::change::{ApplyError, Change, check_changes};
use entry_edit::order::in_order;
use entry_list::slice::EntrySlice;
use entry_list::{Entry, PathStorage};
use ext_small::FsMonitor;
use ext_small::resolve_undo::Paths;
use index_parts::check::ComponentCheck;
use index_parts::hash::Kind;
use std::alloc::AllocError;

/// Applies one change, and records the sides that it removes. The first entries are in `done`; the rest is still to be
/// copied after these. Copies those entries that the change may concern, and returns how many. The first `known` bytes
/// of its path are known to need no directory at a path at which a file of its stage is. Recorded paths that are known
/// to be `rising` stay so.
fn update_next(
    done: &mut Vec<Entry>,
    storage: &mut PathStorage,
    undo: &mut Option<Paths>,
    rest: &[Entry],
    change: &Change<'_>,
    known: usize,
    rising: bool,
) -> Result<usize, AllocError>
    requires { AreRisingIf rising undo.old }
    ensures applied { AppliesNext known change.now rest.now storage.old done.old storage.new
        done.new
        result }
    ensures undone { RecordsNext change.now rest.now storage.old done.old undo.old undo.new result }
    ensures rising { OnOk result (AreRisingIf rising undo.new) }
{
    let count = pass(done, storage, rest, change.path())?;
    record_lost(
        undo,
        *storage.allocator(),
        &EntrySlice::new(done, storage),
        change,
        rising,
    )?;
    apply_one(done, storage, change, known)?;
    Ok(count)
}

/// Returns a copy of the recorded paths. The error is an allocation failure.
#[tactic(auto, using(ext_small::proofs::Clones::same_paths))]
pub(crate) fn copy_of(undo: &Option<Paths>) -> Result<Option<Paths>, AllocError>
    ensures { IfOk result (λ copy. undo_paths copy ≡ undo_paths undo.now) }
{
    match undo {
        Some(paths) => Ok(Some(paths.clone()?)),
        None => Ok(None),
    }
}

/// Sets resolve-undo and the monitor's answer to those after the changes, and invalidates the paths of the changes.
pub(crate) fn renew(
    kept: &mut Kept,
    undo: Option<Paths>,
    monitor: Option<FsMonitor>,
    changes: &[Change<'_>],
)
    ensures { UpdatesKept changes.now undo monitor kept.old kept.new }
{
    kept.undo = undo;
    kept.monitor = monitor;
    invalidate_all(&mut kept.tree, changes);
    unlist_all(&mut kept.untracked, changes);
}

/// The entries after all changes, one after another, and resolve-undo then.
struct Updated {
    entries: Vec<Entry>,
    undo: Option<Paths>,
}

/// Returns the length of a prefix of the path of the change at an index. After the changes before it, that prefix needs
/// no directory at a path at which a file of its stage is.
fn known_at(changes: &[Change<'_>], place: usize) -> usize
    requires { place < length changes.now }
    ensures { IsKnownAt changes.now place result }
{
    if place == 0 {
        return 0;
    }
    clear_after(&changes[place - 1], &changes[place])
}

/// Returns the entries and resolve-undo after all changes, one after another. The error is an allocation failure.
fn update_each(
    entries: &[Entry],
    storage: &mut PathStorage,
    undo: &Option<Paths>,
    changes: &[Change<'_>],
) -> Result<Updated, AllocError>
    ensures { UpdatesEntries changes.now storage.old storage.new entries.now undo.now result }
{
    let mut undo = copy_of(undo)?;
    let rising = are_rising(&undo);
    let room = entries.len().saturating_add(changes.len());
    let mut done = Vec::with_capacity(*storage.allocator(), room)?;
    let mut ahead = Ahead::new(*storage.allocator(), entries);
    for (place, change) in changes.iter().enumerate() {
        let known = known_at(changes, place);
        ahead.go_back(&mut done, storage, change.path())?;
        let rest = ahead.entries();
        let count = update_next(&mut done, storage, &mut undo, rest, change, known, rising)?;
        ahead.pass(count);
    }
    done.extend_from_slice(ahead.entries())?;
    Ok(Updated {
        entries: done,
        undo,
    })
}

/// Returns the entries and resolve-undo after all changes. They are applied in the order of their paths if that makes
/// no difference. The error is an allocation failure.
fn update_all(
    entries: &[Entry],
    storage: &mut PathStorage,
    undo: &Option<Paths>,
    changes: &[Change<'_>],
) -> Result<Updated, AllocError>
    ensures { UpdatesEntries changes.now storage.old storage.new entries.now undo.now result }
{
    match in_order(*storage.allocator(), changes)? {
        Some(ordered) => update_each(entries, storage, undo, &ordered),
        None => update_each(entries, storage, undo, changes),
    }
}

/// The entries after all changes, with resolve-undo and the monitor's answer then.
struct Watched {
    entries: Vec<Entry>,
    undo: Option<Paths>,
    monitor: Option<FsMonitor>,
}

/// Returns the entries after all changes, with resolve-undo and the monitor's answer then. The error is an allocation
/// failure.
fn update_watched(
    entries: &[Entry],
    storage: &mut PathStorage,
    kept: &Kept,
    changes: &[Change<'_>],
) -> Result<Watched, AllocError>
    ensures { UpdatesWatched changes.now storage.old storage.new entries.now kept.now result }
{
    let Updated {
        entries: made,
        undo,
    } = update_all(entries, storage, &kept.undo, changes)?;
    let monitor = monitor_after(
        *storage.allocator(),
        &EntrySlice::new(entries, storage),
        &EntrySlice::new(&made, storage),
        &kept.monitor,
        changes,
    )?;
    Ok(Watched {
        entries: made,
        undo,
        monitor,
    })
}

/// Applies changes one after another, all or none, and updates the extensions about the entries.
///
/// The entries and the storage are then as after calls of [`stage`](crate::single::stage) and
/// [`unstage`](crate::single::unstage) for each change in order. `entries` and `storage` must be those of an index
/// whose ids are of the hash algorithm. The extensions are updated so:
///
/// - In the cache tree and in the untracked cache the path of each change is invalidated, even if the change finds
///   nothing to remove.
/// - In resolve-undo each side of a conflict that a change removed is recorded, in the order of the changes. Its mode
///   and id are stored at its path, and replace what was recorded for its stage. A path that isn't recorded yet is
///   inserted after those below it by the order of bytes. A side that an entry of its path and stage replaces isn't
///   recorded. If no side is removed, resolve-undo is unchanged. If there is none, the first side creates it.
/// - A monitor's answer is adjusted to the new indexes. Staged entries may have changed since that answer.
///
/// Each staged path needs room of its own, even if an entry has it or another change displaces it. The entries and
/// resolve-undo are specified if the entries strictly increase and all paths are in the storage.
///
/// # Errors
///
/// All changes are checked first. The error is the first of these that applies:
///
/// - the first change that is invalid by itself, with its index,
/// - the first change whose path is in a directory that a sparse index has as one entry, with its index, by `entries`
///   before all changes,
/// - an allocation failure, without an index.
///
/// After an error the entries, the storage and the extensions are unchanged.
///
/// # Cost
///
/// The entries are copied once, into one list, and so is resolve-undo. m changes to n entries take time n + m log m.
/// Each is searched for after the position of the one before it, by doubling steps. The entries that it concerns are
/// searched for near the end of those copied.
///
/// If the path of one change is a directory of another's path, the changes are applied in the given order. A change
/// that goes back over entries then takes time linear in their number. For that the entries are copied again, into a
/// list of up to twice as many, whenever its capacity is exhausted.
///
/// A removed side is searched for among the recorded paths near the last. If these don't increase, each one before it
/// is compared. A path that is inserted before others moves these. If an entry is removed that hasn't the path and the
/// stage of the new one, the copied entries are compared from the first that may be removed.
pub fn update<C: ComponentCheck>(
    entries: &mut Vec<Entry>,
    storage: &mut PathStorage,
    kept: &mut Kept,
    check: &C,
    kind: Kind,
    changes: &[Change<'_>],
) -> Result<(), ApplyError>
    ensures reason { FirstRejectedCause (C.refusal check.now) kind changes.now storage.old entries.old
        result }
    ensures applied { AppliesAll changes.now storage.old entries.old storage.new entries.new
        result }
    ensures tree { OnOk result (InvalidatesAll changes.now kept.old.tree kept.new.tree) }
    ensures untracked { OnOk result (UnlistsAll changes.now kept.old.untracked kept.new.untracked) }
    ensures counts { CountsNoMore kept.old.tree kept.new.tree }
    ensures kept { KeepsExtensions changes.now storage.old entries.old kept.old kept.new result }
{
    let len = storage.len();
    let among = EntrySlice::new(entries, storage);
    check_changes(check, kind, &among, len, changes)?;
    match update_watched(entries, storage, kept, changes) {
        Ok(
            Watched {
                entries: edited,
                undo: recorded,
                monitor,
            },
        ) => {
            *entries = edited;
            renew(kept, recorded, monitor, changes);
            Ok(())
        }
        Err(e) => {
            storage.truncate(len);
            Err(e.into())
        }
    }
}
