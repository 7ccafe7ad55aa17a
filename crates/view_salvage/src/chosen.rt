//! Selects which of the readable entries of a file are saved.

ghost use Rattle.std.specs.Prelude.{◌≡◌, ◌<◌, IfErr, IfOk, OnOk, is_some, length, take};
ghost use Rattle.gix_index.specs.Sorted.{IsOrdered};
ghost use Rattle.gix_index.specs.State.{records};
ghost use Rattle.view_salvage.specs.Accepted.{AreAcceptable, entry_fault, parts_of};
ghost use Rattle.view_salvage.specs.Choice.{IsKept, IsSortedSelection, IsUnfitAt, IsFirstUnfitOrNone};
ghost use Rattle.view_salvage.specs.Choice.{fit_of, records_before, named_of};
ghost use Rattle.view_salvage.specs.SalvageSteps.{IsFitAt, StaysIndex};
ghost use Rattle.view_salvage.specs.declared.chosen.Keep.TheVariants.{All};
ghost use Rattle.view_salvage.specs.declared.chosen.Unfit.TheVariants.{Entry as EntryAtFault};

use crate::accepted::{EntryFault, entry_fault};
use crate::salvage::salvaged_state;
use gix_index::decode::entry::EntrySlice;
use gix_index::hash::Kind;
use gix_index::{Entry, State};
use std::alloc::AllocError;
use thiserror::Error;

/// Which entries are saved.
#[derive(Clone, Copy, Debug, PartialEq, Eq)]
pub enum Keep {
    /// Those before the first unfit entry. After damage a reader may be out of step.
    Front,
    /// All that git works with, in order by path and stage. Of each path and stage only the first is saved.
    All,
}

/// Why an entry is unfit.
#[derive(Debug, Drop, Error)]
pub enum Unfit {
    /// Git doesn't work with it.
    #[error("{0}")]
    Entry(EntryFault),
    /// It isn't greater than the entry before it, by path and stage.
    #[error("the path and the stage don't come behind those of the entry before it")]
    Order,
}

impl From<EntryFault> for Unfit {
    ghost from_gives = { λ e fault. fault ≡ EntryAtFault e };

    fn from(e: EntryFault) -> Unfit {
        Unfit::Entry(e)
    }
}

/// The first unfit entry.
#[derive(Debug, Drop)]
pub struct FirstUnfit {
    /// The number of entries before it.
    pub before: usize,
    /// The number of entries after it.
    pub behind: usize,
    /// Why it is unfit.
    pub fault: Unfit,
}

/// Checks that git works with the entry at an index, and that it is greater than the entry before it.
fn check_place(kind: Kind, entries: &EntrySlice<'_>, place: usize) -> Result<(), Unfit>
    requires { place < length entries.now }
    ensures fit { OnOk result (IsFitAt kind entries.now place) }
    ensures unfit { IfErr result (IsUnfitAt kind entries.now place) }
{
    entry_fault(kind, entries.entry(place), entries.path(place))?;
    if place > 0 && !entries.compare(place - 1, place).is_lt() {
        return Err(Unfit::Order);
    }
    Ok(())
}

/// Returns the first unfit entry, if there is one.
pub fn first_unfit(kind: Kind, entries: &EntrySlice<'_>) -> Option<FirstUnfit>
    ensures { IsFirstUnfitOrNone kind entries.now result }
{
    for place in 0..entries.len() {
        match check_place(kind, entries, place) {
            Ok(()) => (),
            Err(fault) => {
                return Some(FirstUnfit {
                    before: place,
                    behind: entries.len() - place - 1,
                    fault,
                });
            }
        }
    }
    None
}

/// Removes the entries with an empty path.
pub(crate) fn keep_named(state: &mut State)
    ensures named { records state.new ≡ named_of (records state.old) }
    ensures index { StaysIndex state.old state.new }
{
    state.remove_entries(|_place, path: &[u8], _entry: &mut Entry| path.is_empty());
}

/// Removes all entries except the first `len`.
fn keep_first(state: &mut State, len: usize)
    ensures first { records state.new ≡ take len (records state.old) }
    ensures index { StaysIndex state.old state.new }
{
    state.remove_entries(|place, _path: &[u8], _entry: &mut Entry| len <= place);
}

/// Returns whether git doesn't work with an entry of this path.
fn is_unfit(kind: Kind, entry: &Entry, path: &[u8]) -> bool
    ensures { result ≡ is_some (entry_fault kind (parts_of entry.now) path.now) }
{
    entry_fault(kind, entry, path).is_err()
}

/// Removes the entries that git doesn't work with.
fn keep_fit(state: &mut State, kind: Kind)
    ensures fit { records state.new ≡ fit_of kind (records state.old) }
    ensures index { StaysIndex state.old state.new }
{
    state.remove_entries(|_place, path: &[u8], entry: &mut Entry| is_unfit(kind, entry, path));
}

/// Returns an index with the entries before the first unfit one.
fn front_of(first: &Option<FirstUnfit>, mut state: State) -> State
    ensures front { records result ≡ records_before first.now (records state) }
    ensures index { StaysIndex state result }
{
    if let Some(first) = first {
        keep_first(&mut state, first.before);
    }
    state
}

/// Returns an index with the entries that git works with, in order by path and stage. Of each path and stage it has the
/// first.
fn all_fit(kind: Kind, mut state: State) -> Result<State, AllocError>
    ensures kept { IfOk result (λ s. IsSortedSelection (fit_of kind (records state)) (records s)) }
    ensures index { IfOk result (StaysIndex state) }
    ensures memory { IfErr result (λ _. IsOrdered (records state) → ⊥) }
{
    keep_fit(&mut state, kind);
    salvaged_state(state)
}

/// Returns an index with the selected entries. `first` is the first unfit entry. Memory is allocated only if all fit
/// entries are selected and the entries aren't in order.
pub(crate) fn chosen(
    keep: Keep,
    kind: Kind,
    first: &Option<FirstUnfit>,
    state: State,
) -> Result<State, AllocError>
    requires { IsFirstUnfitOrNone kind (records state) first.now }
    ensures kept { IfOk result
        (λ s. IsKept keep kind (records state) first.now (records s)) }
    ensures acceptable { IfOk result (λ s. AreAcceptable kind (records s)) }
    ensures index { IfOk result (StaysIndex state) }
    ensures memory { IfErr result (λ _. (keep ≡ All) × (IsOrdered (records state) → ⊥)) }
{
    match keep {
        Keep::Front => Ok(front_of(first, state)),
        Keep::All => all_fit(kind, state),
    }
}
