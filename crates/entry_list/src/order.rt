//! Checks of the order of entries, by path and then by stage.

ghost use Rattle.std.specs.Prelude.{◌↔◌, IsTrue};
ghost use Rattle.entry_list.specs.Sorted.{IsFirstFall, IsOrdered};

use crate::slice::EntrySlice;

impl EntrySlice<'_> {
    /// Returns whether no entry is below the one before it. The last entries are compared first, because appended
    /// entries are those that are out of order.
    pub fn is_ordered(&self) -> bool
        ensures { IsTrue result ↔ IsOrdered self.now }
    {
        for i in (1..self.len()).rev() {
            if self.compare(i, i - 1).is_lt() {
                return false;
            }
        }
        true
    }

    /// Returns the first index of an entry that isn't above the one before it, or None if path and stage strictly
    /// increase.
    pub fn first_fall(&self) -> Option<usize>
        ensures { IsFirstFall self.now result }
    {
        for i in 1..self.len() {
            if self.compare(i - 1, i).is_ge() {
                return Some(i);
            }
        }
        None
    }
}
