//! Applies one change to an index.

ghost use Rattle.std.specs.Prelude.{◌≡◌, [], ◌∷◌, IfOk, OnErr, OnOk, count_by};
ghost use Rattle.entry_edit.specs.Edits.{AreDisplacedCounts, IsResolvedInto, IsStagedInto, IsUnstagedFrom, merged};
ghost use Rattle.entry_edit.specs.EntryEdits.{StageCause};
ghost use Rattle.entry_edit.specs.Wholes.{WholeDirectoryCause};
ghost use Rattle.entry_edit.specs.declared.change.Change.TheVariants.{Stage, Unstage};
ghost use Rattle.entry_list.specs.Order.{IsStrictlyOrdered};
ghost use Rattle.entry_list.specs.Record.{with_path};
ghost use Rattle.entry_lookup.specs.Range.{is_at};
ghost use Rattle.index_edit.specs.StillStorable.{StaysStorable};
ghost use Rattle.index_edit.specs.Updates.{updated};
ghost use Rattle.index_state.specs.Edits.{IsUnchanged};
ghost use Rattle.index_state.specs.State.{PathsInStorage, contents, records, storage_of};
ghost use Rattle.index_state.specs.StateChanges.{WhenOrdered};

use crate::State;
use entry_edit::error::Error;
use entry_edit::stage::Displaced;
use entry_list::Pathless;
use index_edit::parts;
use index_parts::check::ComponentCheck;

impl State {
    /// Stages an entry at a path, as `git update-index --add --replace` does, and returns the entries that it replaced.
    ///
    /// The entry replaces the entry with its path and stage. If it is merged, it replaces all stages. It also replaces
    /// entries of the same stage if one is a file and the other needs a directory there. Each name of the path must
    /// pass `check`. The extensions are updated as [`apply`](State::apply) updates them for this change.
    ///
    /// The result is guaranteed if the entries strictly increase by path, then stage, and all paths are in the storage
    /// ([`paths_in_storage`](State::paths_in_storage)). Otherwise the order of the resulting list isn't specified. It
    /// costs a few searches, moving the entries after it, and a copy of resolve-undo.
    ///
    /// # Errors
    ///
    /// The first of these that applies. The state is then unchanged.
    ///
    /// - The path, the mode, the id or a name of the path is invalid.
    /// - [`Error::InWholeDirectory`]: the path is in a directory that a sparse index has as one entry.
    /// - The storage has no room for the path, or an allocation fails.
    pub fn stage<C: ComponentCheck>(
        &mut self,
        check: &C,
        entry: Pathless,
        path: &[u8],
    ) -> Result<Displaced, Error>
        ensures reason { StageCause (C.refusal check.now) self.old.parts.object_hash entry
            path.now self.old.parts.path_backing self.old.parts.entries result }
        ensures updated { OnOk result (WhenOrdered self.old
            (contents self.new ≡ updated (Stage entry path.entry ∷ []) (contents self.old))) }
        ensures staged { OnOk result (WhenOrdered self.old (IsStagedInto
            (with_path path.now entry) (records self.old) (records self.new))) }
        ensures storable { OnOk result (WhenOrdered self.old
            (StaysStorable (contents self.old) (contents self.new))) }
        ensures told { IfOk result (λ told. WhenOrdered self.old
            (AreDisplacedCounts (with_path path.now entry) (records self.old) told)) }
        ensures placed { PathsInStorage self.old → PathsInStorage self.new }
        ensures err { OnErr result (IsUnchanged self.old self.new) }
    {
        parts::stage(&mut self.parts, check, entry, path)
    }

    /// Replaces all stages of a path by one merged entry, whatever stage its flags have, as git-add does after a
    /// conflict is resolved. Check, extensions, result and errors are those of [`stage`](State::stage).
    pub fn resolve<C: ComponentCheck>(
        &mut self,
        check: &C,
        entry: Pathless,
        path: &[u8],
    ) -> Result<Displaced, Error>
        ensures reason { StageCause (C.refusal check.now) self.old.parts.object_hash (merged entry)
            path.now self.old.parts.path_backing self.old.parts.entries result }
        ensures updated { OnOk result (WhenOrdered self.old
            (contents self.new ≡ updated (Stage (merged entry) path.entry ∷ []) (contents self.old))) }
        ensures resolved { OnOk result (WhenOrdered self.old (IsResolvedInto
            (with_path path.now (merged entry)) (records self.old) (records self.new))) }
        ensures storable { OnOk result (WhenOrdered self.old
            (StaysStorable (contents self.old) (contents self.new))) }
        ensures told { IfOk result (λ told. WhenOrdered self.old
            (AreDisplacedCounts (with_path path.now (merged entry)) (records self.old) told)) }
        ensures placed { PathsInStorage self.old → PathsInStorage self.new }
        ensures err { OnErr result (IsUnchanged self.old self.new) }
    {
        parts::resolve(&mut self.parts, check, entry, path)
    }

    /// Removes the entries at a path, whatever their stage, as `git update-index --force-remove` does, and returns how
    /// many there were. The storage of paths is unchanged.
    ///
    /// The extensions are updated as [`apply`](State::apply) updates them for this change, even if no entry has the
    /// path. The result is guaranteed if the entries strictly increase by path, then stage. Otherwise it isn't
    /// specified which entries are removed.
    ///
    /// # Errors
    ///
    /// - [`Error::InWholeDirectory`]: the path is in a directory that a sparse index has as one entry.
    /// - An allocation failure.
    ///
    /// After an error the state is unchanged.
    pub fn unstage(&mut self, path: &[u8]) -> Result<usize, Error>
        ensures reason { WholeDirectoryCause path.now (records self.old) result }
        ensures updated { OnOk result (WhenOrdered self.old
            (contents self.new ≡ updated (Unstage path.entry ∷ []) (contents self.old))) }
        ensures unstaged { OnOk result (IsStrictlyOrdered (records self.old)
            → IsUnstagedFrom path.now (records self.old) (records self.new)) }
        ensures storable { OnOk result (WhenOrdered self.old
            (StaysStorable (contents self.old) (contents self.new))) }
        ensures count { IfOk result (λ count. IsStrictlyOrdered (records self.old)
            → count ≡ count_by (is_at path.now) (records self.old)) }
        ensures storage { storage_of self.new ≡ storage_of self.old }
        ensures placed { PathsInStorage self.old → PathsInStorage self.new }
        ensures err { OnErr result (IsUnchanged self.old self.new) }
    {
        parts::unstage(&mut self.parts, path)
    }
}
