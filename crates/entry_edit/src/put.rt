//! Insertion of an entry at its position.

ghost use Rattle.std.specs.Prelude.{◌≡◌, ◌+◌, ◌<◌, ◌≤◌, length};
ghost use Rattle.entry_list.specs.Record.{made_entry};
ghost use Rattle.entry_edit.specs.EditSteps.{MovesLast, InsertsEntry};

use crate::near_end::key_place;
use entry_list::list::append;
use entry_list::slice::EntrySlice;
use entry_list::{Entry, PathStorage, Pathless};
use std::alloc::AllocError;

/// Replaces all of an entry except its path.
fn overwrite(slot: &mut Entry, entry: Pathless)
    ensures { slot.new ≡ made_entry entry slot.old.path }
{
    slot.stat = entry.stat;
    slot.id = entry.id;
    slot.flags = entry.flags;
    slot.mode = entry.mode;
}

/// Moves the last entry to the index `place`, before the others from there on.
fn move_last(entries: &mut [Entry], place: usize)
    requires { place < length entries.old }
    ensures { MovesLast place entries.old entries.new }
{
    let (_, back) = entries.split_at_mut(place);
    back.rotate_right(1);
}

/// Puts the entry at its position by path, then stage. It replaces the entry with both, and takes its path. Otherwise
/// it is inserted between those below it and those above it.
///
/// If the entries don't strictly increase, its position is unspecified. A path outside of the storage may be another
/// one after this call.
pub(crate) fn put(
    entries: &mut Vec<Entry>,
    storage: &mut PathStorage,
    entry: Pathless,
    path: &[u8],
) -> Result<(), AllocError>
    ensures put { InsertsEntry entry path.now storage.old entries.old storage.new entries.new result }
    ensures more { length entries.new.items ≤ length entries.old.items + 1 }
{
    let there = EntrySlice::new(entries, storage);
    match key_place(&there, path, entry.flags.stage()) {
        Ok(place) => overwrite(&mut entries[place], entry),
        Err(place) => {
            append(entries, storage, entry, path)?;
            move_last(entries.as_mut_slice(), place);
        }
    }
    Ok(())
}
