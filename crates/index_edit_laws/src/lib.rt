//! Laws of edits of an index by changes, as `State::{stage, resolve, unstage, apply}` make them: the index still passes
//! its checks. Removals, sorts, pushes and mutable borrows are no such edits. A law computes nothing.
#![tactic(auto)]

ghost use Rattle.std.specs.Prelude.{◌≡◌, ℕ, ◌+◌, ◌^◌, ◌<◌, ◌≤◌, List, All, IfSome, length, None};
ghost use Rattle.ext_tree.specs.Sound.{CountsAtMost, IsSoundTree};
ghost use Rattle.ext_tree.specs.Tree.{Node};
ghost use Rattle.index_edit_laws.specs.Faultless.{AreFaultless, StagesShallow};
ghost use Rattle.index_edit_laws.specs.SoundIndex.{IsSoundIndex};
ghost use Rattle.entry_edit.specs.Changes.{applied, first_rejection};
ghost use Rattle.entry_edit.specs.Refusals.{Check};
ghost use Rattle.entry_edit.specs.Wholes.{refusal_among};
ghost use Rattle.entry_edit.specs.declared.change.Change.{Change};
ghost use Rattle.entry_list.specs.Order.{IsStrictlyOrdered};
ghost use Rattle.entry_list.specs.Record.{Record};
ghost use Rattle.ext_encode.specs.MonitorImage.{IsSpellableMonitor};
ghost use Rattle.ext_encode.specs.SpellableCache.{IsSpellableCache};
ghost use Rattle.index_model.specs.Contents.{Contents};
ghost use Rattle.index_parts.specs.declared.hash.Kind.{Kind};
ghost use Rattle.tree_encode.specs.Kept.{HasNamesInOrder};
ghost use Rattle.tree_encode.specs.Refusals.{AreFit};
ghost use Rattle.tree_encode.specs.Staged.{merged_in};
ghost use Rattle.tree_encode.specs.TreeIds.{AreRight, any_name};
ghost use Rattle.index_edit.specs.Invalidated.{all_invalidated};
ghost use Rattle.index_edit.specs.StillStorable.{StagesSized};
ghost use Rattle.index_edit.specs.Updates.{updated};

/// A consistent cache tree is still consistent after changes that invalidate it. In such a tree the names of siblings
/// increase.
pub fn tree_stays_sound()
    ensures sound { (cs : List Change) (t : Node) → IsSoundTree t → IsSoundTree (all_invalidated cs t) }
    ensures order { (t : Node) → IsSoundTree t → HasNamesInOrder t }
{}

/// If each node of a cache tree that has a count has the id and the count that match the records, this still holds
/// after changes. The tree is then the one that the changes invalidate. The changes and the order of the records are
/// arbitrary. The names of siblings must increase, because only the first node with a name is invalidated. No node
/// counts more than there are records then.
pub fn tree_stays_right()
    ensures right { (kind : Kind) (cs : List Change) (rs : List Record) (t : Node) → HasNamesInOrder t
        → AreRight kind rs t → AreRight kind (applied cs rs) (all_invalidated cs t) }
    ensures counts { (kind : Kind) (rs : List Record) (t : Node) → AreRight kind rs t
        → CountsAtMost (length rs) t }
{}

/// If path and stage strictly increase, they still do after changes. If merged entries have trees, they still have them
/// after changes, by a check that accepts each name, and by that of the changes. There is at most one more merged entry
/// for each change.
///
/// The second statement has these premises on the changes:
///
/// - The staged entries are valid.
/// - Their paths are no deeper than trees may be.
/// - No path of a change is in a directory that a sparse index has as one entry.
pub fn entries_stay_fit()
    ensures ordered { (cs : List Change) (rs : List Record) → IsStrictlyOrdered rs
        → IsStrictlyOrdered (applied cs rs) }
    ensures any { (check : Check) (kind : Kind) (cs : List Change) (rs : List Record)
        → AreFaultless check kind cs rs → AreFit any_name kind (merged_in rs)
        → AreFit any_name kind (merged_in (applied cs rs)) }
    ensures checked { (check : Check) (kind : Kind) (cs : List Change) (rs : List Record)
        → AreFaultless check kind cs rs → AreFit check kind (merged_in rs)
        → AreFit check kind (merged_in (applied cs rs)) }
    ensures few { (cs : List Change) (rs : List Record)
        → length (merged_in (applied cs rs)) ≤ length (merged_in rs) + length cs }
{}

/// Changes none of which is rejected stage valid entries, if their paths aren't too deep. No path of one is in a
/// directory that a sparse index has as one entry.
pub fn granted_changes_are_faultless()
    ensures { (check : Check) (kind : Kind) (len : ℕ) (cs : List Change) (rs : List Record)
        → refusal_among (first_rejection check kind len cs) cs rs ≡ None → All StagesSized cs
        → All StagesShallow cs → AreFaultless check kind cs rs }
{}

/// If an index passes `State::verify_entries`, `State::verify_extensions` and `State::verify_tree_ids`, it still does
/// after changes. So no edit leaves a cache tree that would make the next commit wrong.
///
/// The premises are that of [`entries_stay_fit`], and that merged entries and changes are fewer than 2^31 together.
pub fn index_stays_sound()
    ensures { (check : Check) (cs : List Change) (v : Contents)
        → AreFaultless check v.kind cs v.records → length (merged_in v.records) + length cs < 2 ^ 31
        → IsSoundIndex v → IsSoundIndex (updated cs v) }
{}

/// An untracked cache that could be encoded for ids of a hash algorithm still can be after changes, and so can a
/// monitor's answer. So what was preserved from a file is also preserved after an edit.
pub fn extensions_stay_spellable()
    ensures untracked { (kind : Kind) (cs : List Change) (v : Contents)
        → IfSome v.extensions.untracked (IsSpellableCache kind None)
        → IfSome (updated cs v).extensions.untracked (IsSpellableCache kind None) }
    ensures fs_monitor { (cs : List Change) (v : Contents)
        → IfSome v.extensions.fs_monitor IsSpellableMonitor
        → IfSome (updated cs v).extensions.fs_monitor IsSpellableMonitor }
{}
