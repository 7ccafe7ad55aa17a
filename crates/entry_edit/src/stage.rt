//! Staging of an entry.

ghost use Rattle.std.specs.Prelude.{◌≡◌, ◌≢◌, nat_lt};
ghost use Rattle.entry_list.specs.Order.{IsStrictlyOrdered};
ghost use Rattle.entry_fields.specs.Flags.{stage_number};
ghost use Rattle.entry_edit.specs.ClearSteps.{SettlesClear};
ghost use Rattle.entry_edit.specs.EditSteps.{ReportsInTheWay, ends_conflict};
ghost use Rattle.entry_edit.specs.EntryEdits.{SettlesEntry, StagesAllowed};
ghost use Rattle.entry_edit.specs.Refusals.{staged_entry_fault};
ghost use Rattle.entry_edit.specs.Wholes.{EditAmongCause};

use crate::df_conflicts::{has_df_conflict, has_sides};
use crate::error::Error;
use crate::others::remove_others;
use crate::put::put;
use crate::refusals::check_entry;
use crate::wholes::lies_in_whole;
use entry_list::path_range::PathRange;
use entry_list::slice::EntrySlice;
use entry_list::{Entry, PathStorage, Pathless};
use index_parts::check::ComponentCheck;
use index_parts::hash::Kind;
use std::alloc::AllocError;

/// The entries replaced by a staged entry.
#[derive(Clone, Copy, Debug, PartialEq, Eq)]
pub struct Displaced {
    /// The number of entries that were removed.
    pub count: usize,
    /// Whether the stages of a conflict were among them.
    pub conflict: bool,
}

/// Returns whether the entry is merged, and sides of a conflict are at its path.
fn ends_conflict(entries: &EntrySlice<'_>, entry: Pathless, path: &[u8]) -> bool
    ensures { IsStrictlyOrdered entries.now → result ≡ ends_conflict path.now entry entries.now }
{
    entry.flags.stage_raw() == 0 && has_sides(entries, path)
}

/// The conflicts of an entry with others.
#[derive(Clone, Copy)]
struct InTheWay {
    /// Whether the entry is merged, and sides of a conflict are at its path.
    sides: bool,
    /// Whether sides of a conflict are removed, or files where directories are needed.
    others: bool,
}

/// Returns the conflicts of an entry with others.
fn in_the_way(
    entries: &EntrySlice<'_>,
    entry: Pathless,
    path: &[u8],
    checked_len: usize,
) -> InTheWay
    ensures { ReportsInTheWay checked_len path.now entry entries.now result.sides result.others }
{
    let sides = ends_conflict(entries, entry, path);
    let others = sides || has_df_conflict(entries, entry, path, checked_len);
    InTheWay { sides, others }
}

/// Returns whether stages of a conflict are among the removed entries: the sides if the entry is merged, else all
/// removed ones.
fn takes_conflict(entry: Pathless, sides: bool, count: usize) -> bool
    ensures merged { stage_number entry.flags.0 ≡ 0 → result ≡ sides }
    ensures unmerged { stage_number entry.flags.0 ≢ 0 → result ≡ nat_lt 0 count }
{
    if entry.flags.stage_raw() == 0 {
        return sides;
    }
    count > 0
}

/// Stages an entry that [`check_stage`] accepts, as [`settle`] does. The caller knows that the first `checked_len`
/// bytes of the path need no directory that is a file of its stage. No file is searched for at the slashes in them.
pub(crate) fn settle_clear(
    entries: &mut Vec<Entry>,
    storage: &mut PathStorage,
    entry: Pathless,
    path: &[u8],
    checked_len: usize,
) -> Result<Displaced, AllocError>
    ensures { SettlesClear checked_len entry path.now storage.old entries.old storage.new entries.new
        result }
{
    let way = in_the_way(&EntrySlice::new(entries, storage), entry, path, checked_len);
    let before = entries.len();
    put(entries, storage, entry, path)?;
    if way.others {
        remove_others(entries, storage, entry, path);
    }
    let count = before + 1 - entries.len();
    let conflict = takes_conflict(entry, way.sides, count);
    Ok(Displaced { count, conflict })
}

/// Stages an entry that [`check_stage`] accepts, as [`stage`] does. If there is no memory, everything is unchanged.
pub fn settle(
    entries: &mut Vec<Entry>,
    storage: &mut PathStorage,
    entry: Pathless,
    path: &[u8],
) -> Result<Displaced, AllocError>
    ensures { SettlesEntry entry path.now storage.old entries.old storage.new entries.new result }
{
    settle_clear(entries, storage, entry, path, 0)
}

/// Returns Ok if an entry may be staged at a path among these. The index has ids of the hash algorithm `kind`.
///
/// The first of these errors is returned:
///
/// - an error of the path, the mode, the id or a name of the path
/// - the path is in a complete directory of a sparse index, which is guaranteed if the entries strictly increase
/// - the path doesn't fit in the storage of paths.
pub fn check_stage<C: ComponentCheck>(
    check: &C,
    kind: Kind,
    entries: &EntrySlice<'_>,
    len: usize,
    entry: Pathless,
    path: &[u8],
) -> Result<(), Error>
    ensures { EditAmongCause (staged_entry_fault (C.refusal check.now) kind entry path.now) len path.now
        entries.now result }
{
    check_entry(check, kind, entry, path)?;
    if lies_in_whole(entries, path) {
        return Err(Error::InWholeDirectory);
    }
    if PathRange::new(len, path.len()).is_none() {
        return Err(Error::PathTooLong { len: path.len() });
    }
    Ok(())
}

/// Stages an entry at a path, as git-update-index does with `--add` and `--replace`. `entries` and `storage` are those
/// of an index with ids of the hash algorithm `kind`.
///
/// The entry replaces the one with its path and its stage. A merged entry replaces all stages of its path. An entry of
/// the same stage is removed if it is a file where the path needs a directory, or if it is below the path. All other
/// entries stay. If path and stage strictly increase and no file is in place of a directory before, this is so
/// afterwards.
///
/// It is an error if the path, the mode, the id or a name of the path is wrong. It is one too if the path is in a
/// complete directory of a sparse index, or if there is no room or memory. The entries and the storage are then
/// unchanged. If the entries don't strictly increase, or a path is outside of the storage, nothing more is guaranteed.
///
/// It makes a few searches, and moves the entries after the position. If others are removed, it reads each entry from
/// the first of them on, or from the path on.
pub fn stage<C: ComponentCheck>(
    entries: &mut Vec<Entry>,
    storage: &mut PathStorage,
    check: &C,
    kind: Kind,
    entry: Pathless,
    path: &[u8],
) -> Result<Displaced, Error>
    ensures { StagesAllowed (C.refusal check.now) kind entry path.now storage.old entries.old
        storage.new entries.new result }
{
    let len = storage.len();
    check_stage(
        check,
        kind,
        &EntrySlice::new(entries, storage),
        len,
        entry,
        path,
    )?;
    let told = settle(entries, storage, entry, path)?;
    Ok(told)
}
