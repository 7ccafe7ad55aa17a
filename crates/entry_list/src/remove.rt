//! Removal of entries.

ghost use Rattle.std.specs.Prelude.{◌≡◌};
ghost use Rattle.entry_list.specs.Removed.{RemovesWith};

use crate::Entry;

/// Returns a copy of the entry.
fn copy_of(entry: &Entry) -> Entry
    ensures { result ≡ entry.now }
{
    Entry {
        stat: entry.stat,
        id: entry.id,
        flags: entry.flags,
        mode: entry.mode,
        path: entry.path,
    }
}

/// Removes the entries for which the closure returns true.
///
/// The closure is called once for each entry, from the first to the last. Its arguments are the index that the entry
/// had at the call of this function, the path and the entry.
///
/// The other entries keep their order, and the changes that the closure made. Each is moved at most once. No memory is
/// allocated.
pub fn remove_entries<F: FnMut(usize, &[u8], &mut Entry) -> bool>(
    entries: &mut Vec<Entry>,
    backing: &[u8],
    remove: &mut F,
)
    requires callable { F.IsAlwaysCallable remove.old }
    ensures { RemovesWith (λ f i p e b o g. F.step f i p e b o g) backing.now remove.old
        entries.old.items remove.new entries.new.items }
{
    let mut retained = 0;
    for i in 0..entries.len() {
        let path = entries[i].path_in(backing);
        if !remove(i, path, &mut entries[i]) {
            if retained < i {
                entries[retained] = copy_of(&entries[i]);
            }
            retained += 1;
        }
    }
    entries.truncate(retained);
}
