//! Takes out the storage of paths, and puts one in.

ghost use Rattle.std.specs.Prelude.{◌≡◌, []};
ghost use Rattle.index_state.specs.Edits.{with_records};
ghost use Rattle.index_state.specs.State.{contents, entries_of, records, storage_of};

use crate::State;
use entry_list::PathStorage;

impl State {
    /// Takes the storage of paths, and leaves an empty one, without allocating. The entries are unchanged.
    ///
    /// The paths of all entries are empty until a storage with their paths is returned with
    /// [`return_path_backing`](State::return_path_backing).
    pub fn take_path_backing(&mut self) -> PathStorage
        ensures given { result.items ≡ storage_of self.old }
        ensures emptied { storage_of self.new ≡ [] }
        ensures entries { entries_of self.new ≡ entries_of self.old }
        ensures others { contents self.new ≡ with_records (contents self.old) (records self.new) }
    {
        let alloc = *self.parts.path_backing.allocator();
        std::mem::replace(&mut self.parts.path_backing, Vec::new(alloc))
    }

    /// Puts in a storage of paths when the state has none. The entries are unchanged. With the storage that was taken
    /// they have their former paths.
    pub fn return_path_backing(&mut self, backing: PathStorage)
        requires { storage_of self.old ≡ [] }
        ensures stored { storage_of self.new ≡ backing.items }
        ensures entries { entries_of self.new ≡ entries_of self.old }
        ensures others { contents self.new ≡ with_records (contents self.old) (records self.new) }
    {
        self.parts.path_backing = backing;
    }
}
