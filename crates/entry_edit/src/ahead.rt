//! The entries that no change has reached yet.

ghost use Rattle.std.specs.Prelude.{◌≡◌, ◌≤◌, ◌++◌, IfOk, OnOk, drop, length};
ghost use Rattle.entry_edit.specs.Ahead.{HasRoom, entries_ahead};

use crate::near_end::prefix_end;
use entry_list::Entry;
use entry_list::slice::EntrySlice;
use std::alloc::{AllocError, Global};

/// The number of done entries after a change's path up to which they are moved, and not put ahead again.
const NEAR: usize = 64;

/// The entries that no change has reached yet: those of a list from an index on. The list is the given one, or a copy
/// after done entries were put ahead again.
#[derive(Drop)]
pub struct Ahead<'a> {
    given: &'a [Entry],
    copied: Vec<Entry>,
    is_copied: bool,
    at: usize,
}

/// Writes entries before those from the index `at` on, over others, and returns the index of the first of them.
fn put_in_front(list: &mut [Entry], at: usize, entries: &mut [Entry]) -> usize
    requires room { length entries.old ≤ at }
    requires inside { at ≤ length list.old }
    ensures { drop result list.new ≡ entries.old ++ drop at list.old }
{
    let start = at - entries.len();
    let (_, back) = list.split_at_mut(start);
    let (over, _) = back.split_at_mut(entries.len());
    over.swap_with_slice(entries);
    start
}

impl<'a> Ahead<'a> {
    /// Returns these entries, all of them ahead. A copy of them takes memory of the allocator.
    pub fn new(alloc: Global, entries: &'a [Entry]) -> Ahead<'a>
        ensures { entries_ahead result ≡ entries.now }
    {
        Ahead {
            given: entries,
            copied: Vec::new(alloc),
            is_copied: false,
            at: 0,
        }
    }

    /// Returns the entries that are ahead.
    pub fn entries(&self) -> &[Entry]
        ensures { result.now ≡ entries_ahead self.now }
    {
        let list = if self.is_copied {
            &self.copied
        } else {
            self.given
        };
        let (_, ahead) = list.split_at(self.at.min(list.len()));
        ahead
    }

    /// Passes `count` entries at the start, which are no longer ahead.
    pub fn pass(&mut self, count: usize)
        requires { count ≤ length (entries_ahead self.old) }
        ensures { entries_ahead self.new ≡ drop count (entries_ahead self.old) }
    {
        self.at += count;
    }

    /// Returns the done entries, those ahead, and those ahead once more. It is an error if there is no memory.
    fn copy_behind(&self, done: &[Entry]) -> Result<Vec<Entry>, AllocError>
        ensures { IfOk result
            (λ list. list.items ≡ (done.now ++ entries_ahead self.now) ++ entries_ahead self.now) }
    {
        let ahead = self.entries();
        let room = done.len().saturating_add(ahead.len());
        let mut list: Vec<Entry> = Vec::with_capacity(*self.copied.allocator(), room)?;
        list.extend_from_slice(done)?;
        list.extend_from_slice(ahead)?;
        list.extend_from_slice(ahead)?;
        Ok(list)
    }

    /// Makes room for `count` entries before those ahead. If there is too little, those ahead are copied after as many
    /// entries as there are in all, so as many are staged before the next copy. It is an error if there is no memory.
    fn make_room(&mut self, done: &[Entry], count: usize) -> Result<(), AllocError>
        requires { count ≤ length done.now }
        ensures same { entries_ahead self.new ≡ entries_ahead self.old }
        ensures room { OnOk result (HasRoom count self.new) }
    {
        if self.is_copied && count <= self.at && self.at <= self.copied.len() {
            return Ok(());
        }
        let list = self.copy_behind(done)?;
        self.at = list.len() - self.entries().len();
        self.copied = list;
        self.is_copied = true;
        Ok(())
    }

    /// Puts the done entries after a path ahead again, if they are at least [`NEAR`]. A change with a lower path then
    /// moves fewer entries. It is an error if there is no memory, and both lists are then unchanged.
    pub fn go_back(
        &mut self,
        done: &mut Vec<Entry>,
        storage: &[u8],
        path: &[u8],
    ) -> Result<(), AllocError>
        ensures { done.new.items ++ entries_ahead self.new
            ≡ done.old.items ++ entries_ahead self.old }
    {
        let place = prefix_end(&EntrySlice::new(done, storage), path);
        let count = done.len() - place;
        if count < NEAR {
            return Ok(());
        }
        self.make_room(done, count)?;
        let (_, back) = done.as_mut_slice().split_at_mut(place);
        self.at = put_in_front(self.copied.as_mut_slice(), self.at, back);
        done.truncate(place);
        Ok(())
    }
}
