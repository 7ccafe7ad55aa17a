//! Removal of a path from the index.

ghost use Rattle.std.specs.Prelude.{◌≡◌, ◌≤◌, ◌++◌, drop, length, take};
ghost use Rattle.entry_edit.specs.EntryEdits.{UnstagesPath};

use crate::near_end::path_range;
use entry_list::Entry;
use entry_list::slice::EntrySlice;

/// Removes the elements from `start` up to `end`.
fn remove_range(entries: &mut Vec<Entry>, start: usize, end: usize)
    requires in_order { start ≤ end }
    requires inside { end ≤ length entries.old.items }
    ensures { entries.new.items ≡ take start entries.old.items ++ drop end entries.old.items }
{
    let rest = entries.len() - (end - start);
    let (_, back) = entries.as_mut_slice().split_at_mut(start);
    back.rotate_left(end - start);
    entries.truncate(rest);
}

/// Removes the entries at the path, of any stage, as git-update-index does with `--force-remove`. Returns how many
/// there were. All other entries and the storage of paths are unchanged. No memory is allocated.
///
/// If the paths fall somewhere, it is unspecified which entries are removed.
pub fn unstage(entries: &mut Vec<Entry>, storage: &[u8], path: &[u8]) -> usize
    ensures { UnstagesPath path.now storage.now entries.old entries.new result }
{
    let Some(places) = path_range(&EntrySlice::new(entries, storage), path) else {
        return 0;
    };
    remove_range(entries, places.start, places.end);
    places.end - places.start
}
