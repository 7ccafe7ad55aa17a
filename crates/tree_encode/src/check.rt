//! Check that entries can be written as trees.

ghost use Rattle.std.specs.Prelude.{◌≡◌, ◌<◌, ◌^◌, ◌++◌, ◌⊎◌, [], ◌∷◌, ℕ, List, IfOk, IfErr, OnOk, length};
ghost use Rattle.std.specs.Prelude.{take};
ghost use Rattle.std.specs.List.{HoldsAt};
ghost use Rattle.entry_list.specs.Order.{IsStrictlyOrdered};
ghost use Rattle.tree_encode.specs.ApartSteps.{AreBeginnings, EndsWith, LiesInOne};
ghost use Rattle.tree_encode.specs.Refusals.{AreFit, RecordHasFault, IsTreeRecord, AreRefused, TreesFaultCause};
ghost use Rattle.tree_encode.specs.SharedSteps.{IsCheckPassed};
ghost use Rattle.tree_encode.specs.Staged.{Staged};

use crate::apart::{beginnings_of, last_above};
use crate::error::Error;
use crate::leaf::{Leaf, is_removed, leaf_at};
use crate::shared::fault_behind;
use bstr::BString;
use entry_list::slice::EntrySlice;
use index_parts::check::ComponentCheck;
use index_parts::hash::Kind;
use std::alloc::Global;

/// The maximum number of levels of directories below the root.
pub(crate) const MAX_LEVELS: u32 = 2048;

/// Returns an error if the entry at index `place`, taken by itself, can't be in a tree. `before` is empty, or the path
/// of an entry before it, which is valid.
fn check_entry<C: ComponentCheck>(
    alloc: Global,
    kind: Kind,
    check: &C,
    entries: &EntrySlice<'_>,
    place: usize,
    before: &[u8],
) -> Result<(), Error>
    requires within { place < length entries.now }
    requires passed { IsCheckPassed (C.refusal check.now) 2048 before.now }
    ensures fit { IfOk result
        (λ _. HoldsAt (IsTreeRecord (C.refusal check.now) kind) entries.now place) }
    ensures fault { IfErr result (λ e. TreesFaultCause e (λ n. ⊥)
        (λ f. HoldsAt (λ r. (before : List Staged)
        → RecordHasFault (C.refusal check.now) kind before r f) entries.now place)) }
{
    let entry = entries.entry(place);
    if is_removed(entry) {
        return Ok(());
    }
    let path = entries.path(place);
    if entry.stage_raw() != 0 {
        return Err(Error::Unmerged {
            path: BString::from_slice(alloc, path)?,
        });
    }
    let Some(mode) = entry.mode.to_tree_entry_mode() else {
        return Err(Error::Mode {
            path: BString::from_slice(alloc, path)?,
            mode: entry.mode,
        });
    };
    if let Some(fault) = fault_behind(check, MAX_LEVELS, mode.kind(), before, path) {
        return Err(Error::Path {
            path: BString::from_slice(alloc, path)?,
            fault,
        });
    }
    if !entry.id.is_of_kind(kind) {
        return Err(Error::OtherKind {
            path: BString::from_slice(alloc, path)?,
        });
    }
    if entry.id.is_null() {
        return Err(Error::NullId {
            path: BString::from_slice(alloc, path)?,
        });
    }
    Ok(())
}

/// Appends `leaf` to `files`, and removes those with which no later path can begin. Fails with [`Error::Both`] if the
/// path of `leaf` is inside one of `files`.
fn check_apart<'a>(alloc: Global, files: &mut Vec<Leaf<'a>>, leaf: Leaf<'a>) -> Result<(), Error>
    ensures beginnings { OnOk result ((k : ℕ) × AreBeginnings k leaf.entry.path.now files.old.items
        × (files.new.items ≡ take k files.old.items ++ leaf.entry ∷ [])) }
    ensures fault { IfErr result (λ e. TreesFaultCause e (λ n. ⊥)
        (LiesInOne leaf.entry.path.now files.old.items)) }
{
    let count = beginnings_of(files, leaf.path);
    files.truncate(count);
    if let Some(file) = last_above(files, leaf.path) {
        return Err(Error::Both {
            file: BString::from_slice(alloc, file.path)?,
            below: BString::from_slice(alloc, leaf.path)?,
        });
    }
    files.push(leaf)?;
    Ok(())
}

/// Returns the path of the last of `files`, or an empty path if there is none.
fn last_path<'a>(files: &[Leaf<'a>]) -> &'a [u8]
    ensures { (result.now ≡ []) ⊎ EndsWith files.now (λ f. f.path.now ≡ result.now) }
{
    let Some(file) = files.last().copied() else {
        return &[];
    };
    file.path
}

/// Returns the error for the first entry that can't be in the trees of the entries up to it. Fails with
/// [`Error::TooManyEntries`] if there are 2^31 entries or more.
pub(crate) fn check_entries<C: ComponentCheck>(
    alloc: Global,
    kind: Kind,
    check: &C,
    entries: &EntrySlice<'_>,
) -> Result<(), Error>
    requires { IsStrictlyOrdered entries.now }
    ensures fit { IfOk result (λ _. AreFit (C.refusal check.now) kind entries.now) }
    ensures few { IfOk result (λ _. length entries.now < 2 ^ 31) }
    ensures fault { IfErr result (λ e. TreesFaultCause e (λ n. ⊥)
        (AreRefused (C.refusal check.now) kind entries.now)) }
{
    if entries.len() >= 1 << 31 {
        return Err(Error::TooManyEntries);
    }
    let mut files = Vec::new(alloc);
    for place in 0..entries.len() {
        check_entry(alloc, kind, check, entries, place, last_path(&files))?;
        if let Some(leaf) = leaf_at(entries, place) {
            check_apart(alloc, &mut files, leaf)?;
        }
    }
    Ok(())
}
