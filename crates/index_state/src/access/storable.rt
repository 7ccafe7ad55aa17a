//! Whether a file can store the index, and its resolve-undo (gitformat-index, "Index entry", "Cache tree", "Resolve
//! undo").

ghost use Rattle.std.specs.Prelude.{◌↔◌, IsTrue};
ghost use Rattle.index_model.specs.Storable.{CanKeepUndo, IsStorable};
ghost use Rattle.index_state.specs.State.{contents};

use crate::State;
use index_encode::storable::{are_storable, is_tree_storable, is_undo_spellable};

impl State {
    /// Returns whether a file can store the index, so that reading the file gives what was written. It is true exactly
    /// if:
    ///
    /// - each id, also of entries marked `REMOVE`, is of the state's hash algorithm,
    /// - no path of 4095 bytes or more contains a NUL,
    /// - the cache tree, if there is one, can be encoded.
    ///
    /// With `Extensions::Kept` all extensions that match are written, and the others must be encodable too.
    /// [`is_resolve_undo_keepable`](State::is_resolve_undo_keepable) tests resolve-undo. An untracked cache and a
    /// monitor's answer come only from reading, and can be encoded. `stage`, `resolve`, `unstage` and `apply` preserve
    /// this.
    ///
    /// It is true for each state that was read or newly created. A caller that edits through borrows, as
    /// [`entries_mut`](State::entries_mut) and [`tree_mut`](State::tree_mut) return them, can test it afterwards. No
    /// memory is allocated. The time is linear in the entries and the bytes of their paths, plus that of
    /// `Tree::is_storable`.
    pub fn is_storable(&self) -> bool
        ensures { IsTrue result ↔ IsStorable (contents self.now) }
    {
        let parts = &self.parts;
        are_storable(&parts.entries, &parts.path_backing, parts.object_hash)
            && is_tree_storable(&parts.extensions.tree, parts.object_hash)
    }

    /// Returns whether resolve-undo can be encoded, so that it is read as it was written with `Extensions::Kept`. It is
    /// true exactly if there is no resolve-undo, or if:
    ///
    /// - no path in it contains a NUL,
    /// - each id is of the state's hash algorithm,
    /// - no stage that is present has the mode 0.
    ///
    /// It is true for each state that was read or newly created. `apply`, `stage`, `resolve` and `unstage` record the
    /// entries that are removed. They leave it true if the state is storable and no path of the entries contains a NUL.
    /// No memory is allocated. The time is linear in the paths in resolve-undo and their bytes.
    pub fn is_resolve_undo_keepable(&self) -> bool
        ensures { IsTrue result ↔ CanKeepUndo (contents self.now) }
    {
        is_undo_spellable(&self.parts.extensions.resolve_undo, self.parts.object_hash)
    }
}
