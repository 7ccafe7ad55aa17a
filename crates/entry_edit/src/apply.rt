//! One change of several, made to entries that are copied up to its path.

ghost use Rattle.std.specs.Prelude.{◌≡◌, ◌≤◌, ◌++◌, List, IfOk, length, take};
ghost use Rattle.entry_list.specs.Record.{Record, records_in};
ghost use Rattle.entry_edit.specs.ClearSteps.{AppliesClear, IsClearAfter, IsClearFor};
ghost use Rattle.entry_edit.specs.EditSteps.{AreBeyond};

use crate::change::Change;
use crate::stage::settle_clear;
use crate::unstage::unstage;
use base_search::ordered::end_from;
use entry_list::paths::shared_len;
use entry_list::slice::EntrySlice;
use entry_list::{Entry, PathStorage};
use entry_lookup::search::Prefix;
use std::alloc::AllocError;

/// Returns how many bytes at the start of a change's path need no directory that is a file of its stage, after the
/// change before it is made. It is the length of the common prefix of both paths if both stage an entry at the same
/// stage.
pub fn clear_after(before: &Change<'_>, change: &Change<'_>) -> usize
    ensures { (rs : List Record) → IsClearAfter before.now rs → IsClearFor result change.now rs }
{
    match (before, change) {
        (
            Change::Stage {
                entry: last,
                path: front,
            },
            Change::Stage { entry, path },
        ) if last.flags.stage_raw() == entry.flags.stage_raw() => shared_len(front, path),
        _ => 0,
    }
}

/// Makes one change that [`check_changes`](crate::change::check_changes) accepts. The entries are then as
/// [`stage`](crate::stage::stage) or [`unstage`](crate::unstage::unstage) leave them.
///
/// The caller knows that the first `checked_len` bytes of the path need no directory that is a file of its stage. If
/// there is no memory, everything is unchanged.
pub fn apply_one(
    entries: &mut Vec<Entry>,
    storage: &mut PathStorage,
    change: &Change<'_>,
    checked_len: usize,
) -> Result<(), AllocError>
    ensures { AppliesClear checked_len change.now storage.old entries.old storage.new entries.new result }
{
    match change {
        Change::Stage { entry, path } => {
            settle_clear(entries, storage, *entry, path, checked_len)?;
        }
        Change::Unstage { path } => {
            unstage(entries, storage, path);
        }
    }
    Ok(())
}

/// Returns how many entries come before a path or begin with it. If they are few, it compares few.
fn count_before(rest: &EntrySlice<'_>, path: &[u8]) -> usize
    ensures inside { result ≤ length rest.now }
    ensures beyond { AreBeyond path.now rest.now result }
{
    let tail = &[];
    let places = Prefix {
        entries: rest,
        prefix: path,
        tail,
    };
    end_from(&places, 0)
}

/// Appends to the done entries those of the rest that a change of the path may concern, and returns their number. They
/// are those before the path, and all that begin with it. It is an error if there is no memory.
pub fn pass(
    done: &mut Vec<Entry>,
    storage: &[u8],
    rest: &[Entry],
    path: &[u8],
) -> Result<usize, AllocError>
    ensures inside { IfOk result (λ count. count ≤ length rest.now) }
    ensures copied { IfOk result (λ count. done.new.items ≡ done.old.items ++ take count rest.now) }
    ensures beyond { IfOk result (AreBeyond path.now (records_in storage.now rest.now)) }
{
    let count = count_before(&EntrySlice::new(rest, storage), path);
    let (near, _) = rest.split_at(count);
    done.extend_from_slice(near)?;
    Ok(count)
}
