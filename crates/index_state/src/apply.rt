//! Applies changes to an index, all or none.

ghost use Rattle.std.specs.Prelude.{◌≡◌, All, OnErr, OnOk};
ghost use Rattle.entry_edit.specs.Changes.{IsAppliedTo};
ghost use Rattle.entry_edit.specs.EntryEdits.{FirstRejectedCause};
ghost use Rattle.index_edit.specs.StillStorable.{StagesSized, StaysStorable};
ghost use Rattle.index_edit.specs.Updates.{updated};
ghost use Rattle.index_state.specs.Edits.{IsUnchanged};
ghost use Rattle.index_state.specs.State.{PathsInStorage, contents, records};
ghost use Rattle.index_state.specs.StateChanges.{WhenOrdered};

use crate::State;
use entry_edit::change::{ApplyError, Change};
use index_edit::parts;
use index_parts::check::ComponentCheck;

impl State {
    /// Applies changes one after another, all or none, as `git update-index --index-info` does. A staged entry replaces
    /// the entry with its path and stage. If it is merged, it replaces all stages. It also replaces files at a path at
    /// which it needs a directory, and entries below its own path. Each name of a staged path must pass `check`.
    ///
    /// The extensions are updated with the entries, as git does:
    ///
    /// - In the cache tree the counts on the path to each change are invalidated, so no wrong node remains.
    /// - In the untracked cache the data of each path's directory is removed, or of all directories on the path.
    /// - Removed sides of conflicts are recorded in resolve-undo, so that `git checkout -m` can restore them.
    /// - The answer of a file system monitor is adjusted to the new indexes. Staged entries may have changed since that
    ///   answer. It is removed if it doesn't match the entries.
    ///
    /// Whether the extensions match is unchanged. A storable state stays storable. If no path contains a NUL, that
    /// stays so too, and any version can store it.
    ///
    /// This is guaranteed if the entries strictly increase by path, then stage, and all paths are in the storage
    /// ([`paths_in_storage`](State::paths_in_storage)). Otherwise the order of the resulting list isn't specified.
    ///
    /// For n entries, m changes with increasing paths cost n + m log n; in any other order up to n each. The entries
    /// are copied once, and so is resolve-undo. Each entry that the monitor doesn't vouch for costs one more search.
    ///
    /// # Errors
    ///
    /// - [`ApplyError::Refused`]: the first change that is invalid by itself, by its index. If there is none, the first
    ///   whose path is in a directory that a sparse index has as one entry.
    /// - [`ApplyError::Memory`]: an allocation failure.
    ///
    /// After an error the state is unchanged.
    pub fn apply<C: ComponentCheck>(
        &mut self,
        check: &C,
        changes: &[Change<'_>],
    ) -> Result<(), ApplyError>
        ensures reason { FirstRejectedCause (C.refusal check.now) self.old.parts.object_hash
            changes.now self.old.parts.path_backing self.old.parts.entries result }
        ensures updated { OnOk result (WhenOrdered self.old
            (contents self.new ≡ updated changes.now (contents self.old))) }
        ensures applied { OnOk result (WhenOrdered self.old
            (IsAppliedTo changes.now (records self.old) (records self.new))) }
        ensures storable { OnOk result (WhenOrdered self.old
            (All StagesSized changes.now → StaysStorable (contents self.old) (contents self.new))) }
        ensures placed { PathsInStorage self.old → PathsInStorage self.new }
        ensures err { OnErr result (IsUnchanged self.old self.new) }
    {
        parts::apply(&mut self.parts, check, changes)
    }
}
