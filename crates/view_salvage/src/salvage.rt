//! Saves what is readable of a damaged index file.

ghost use Rattle.std.specs.Prelude.{◌≡◌, ◌<◌, ◌≤◌, ◌↔◌, IfErr, IfOk, IfSome, IsTrue, OnErr, Some, false, length};
ghost use Rattle.std.specs.Option.{option_map};
ghost use Rattle.gix_index.specs.Id.{id_bytes, is_null};
ghost use Rattle.gix_index.specs.Link.{link_of};
ghost use Rattle.gix_index.specs.Sorted.{IsOrdered};
ghost use Rattle.gix_index.specs.State.{contents, records};
ghost use Rattle.view_salvage.specs.Accepted.{AreAcceptable};
ghost use Rattle.view_salvage.specs.Laws.{AreWhole};
ghost use Rattle.view_salvage.specs.Remains.{IsPlainIndex};
ghost use Rattle.view_salvage.specs.Choice.{IsSortedSelection};
ghost use Rattle.view_salvage.specs.Salvage.{CanBeShared, MergesByBitmaps, MergesOrSorts, SalvagesRemains, looked_at};
ghost use Rattle.view_salvage.specs.SalvageSteps.{Completes, CompletesWith, IsAbove, KeepPlaced, LeavesFirsts, StaysIndex};

use crate::chosen::{FirstUnfit, Keep, chosen, first_unfit, keep_named};
use crate::remains::{FirstFault, Remains, with_sparse_mark};
use gix_index::decode::entry::EntrySlice;
use gix_index::extension::{Link, link};
use gix_index::{Entry, State, Version};
use index_model::Parts;
use index_model::extension::Outcome;
use std::alloc::{AllocError, Global};

/// What was done with the entries of a shared index.
#[derive(Clone, Copy, Debug, PartialEq, Eq)]
pub enum SharedEntries {
    /// The readable part of the file has no link to a shared index.
    Unlinked,
    /// They are merged with those of the file.
    Merged,
    /// They are missing: the link can't be read, no shared index was given, or the two don't match.
    Missing,
}

/// What is saved of a file, and what was found in it.
#[derive(Drop)]
pub struct Salvaged {
    /// The saved entries. They are an index without extensions, except that of a sparse index if an entry is a sparse
    /// directory.
    pub state: State,
    /// The version of the file.
    pub version: Version,
    /// The number of entries that the file declares.
    pub declared: u32,
    /// The number of entries that were read, from the first on.
    pub read: usize,
    /// The first unfit entry of those that were read, merged with those of the shared index if these are there. If
    /// these are missing, entries with an empty path are ignored.
    pub first: Option<FirstUnfit>,
    /// The first error, if the file has one.
    pub fault: Option<FirstFault>,
    /// Whether the entries of the shared index are included.
    pub shared: SharedEntries,
}

impl Salvaged {
    /// Returns the number of saved entries.
    pub fn kept(&self) -> usize
        ensures { result ≡ length (records self.now.state) }
    {
        self.state.entries().len()
    }
}

/// An index with the entries of a file, and with those of its shared index if they are merged.
#[derive(Drop)]
struct Completed {
    state: State,
    shared: SharedEntries,
}

/// Returns the entries of both indexes merged by the link, or those of the first if the two don't match. Memory is
/// allocated only if the link has bitmaps, and the shared index has no link of its own.
fn join_shared(
    alloc: Global,
    link: Link,
    mut own: State,
    shared: State,
) -> Result<Completed, AllocError>
    requires named { is_null (id_bytes link.shared_index_checksum) ≡ false }
    requires shared { CanBeShared own shared }
    ensures completed { IfOk result (CompletesWith (link_of link) (contents shared) own) }
    ensures memory { OnErr result
        (MergesByBitmaps (Some (link_of link)) (Some (contents shared))) }
{
    if shared.link().is_some() {
        return Ok(Completed {
            state: own,
            shared: SharedEntries::Missing,
        });
    }
    match link.dissolve_into(alloc, &mut own, shared) {
        Ok(()) => Ok(Completed {
            state: own,
            shared: SharedEntries::Merged,
        }),
        Err(link::decode::Error::Memory) => Err(AllocError),
        Err(link::decode::Error::Corrupt(_)) => Ok(Completed {
            state: own,
            shared: SharedEntries::Missing,
        }),
        Err(link::decode::Error::BitmapDecode { .. }) => Ok(Completed {
            state: own,
            shared: SharedEntries::Missing,
        }),
    }
}

/// Returns the entries of a file as an index, with those of its shared index if they can be merged.
fn with_shared(
    alloc: Global,
    link: Option<Link>,
    has_link: bool,
    own: State,
    shared: Option<State>,
) -> Result<Completed, AllocError>
    requires { IfSome shared (CanBeShared own) }
    ensures completed { IfOk result
        (Completes (option_map link_of link) has_link (option_map contents shared) own) }
    ensures memory { OnErr result
        (MergesByBitmaps (option_map link_of link) (option_map contents shared)) }
{
    let Some(link) = link else {
        let shared = if has_link {
            SharedEntries::Missing
        } else {
            SharedEntries::Unlinked
        };
        return Ok(Completed { state: own, shared });
    };
    if link.shared_index_checksum.is_null() {
        return Ok(Completed {
            state: own,
            shared: SharedEntries::Unlinked,
        });
    }
    let Some(shared) = shared else {
        return Ok(Completed {
            state: own,
            shared: SharedEntries::Missing,
        });
    };
    join_shared(alloc, link, own, shared)
}

/// Returns whether the entry at index `place` has a path and is greater than the last of the first `kept` entries.
fn is_above(entries: &EntrySlice<'_>, kept: usize, place: usize) -> bool
    requires within { kept ≤ place }
    requires inside { place < length entries.now }
    ensures { IsTrue result ↔ IsAbove entries.now kept place }
{
    if entries.path(place).is_empty() {
        return false;
    }
    if kept == 0 {
        return true;
    }
    entries.compare(kept - 1, place).is_lt()
}

/// Removes entries with an empty path, and all except the first of each path and stage. The entries are in order. An
/// entry moves only to an earlier index: directly after the last preserved entry, if it is greater than that one.
fn keep_firsts(entries: &mut Vec<Entry>, storage: &[u8])
    ensures placed { KeepPlaced storage.now entries.old.items entries.new.items }
    ensures saved { LeavesFirsts storage.now entries.old.items entries.new.items }
{
    let mut kept = 0;
    for place in 0..entries.len() {
        if is_above(&EntrySlice::new(entries, storage), kept, place) {
            entries.swap(kept, place);
            kept += 1;
        }
    }
    entries.truncate(kept);
}

/// Returns an index with the saved entries, if the entries are in order. They aren't reallocated.
fn firsts(state: State) -> State
    ensures saved { IsOrdered (records state) → IsSortedSelection (records state) (records result) }
    ensures index { IsOrdered (records state) → StaysIndex state result }
{
    let object_hash = state.object_hash();
    let timestamp = state.timestamp();
    let (mut entries, path_backing) = state.into_entries();
    keep_firsts(&mut entries, &path_backing);
    State::from(Parts {
        object_hash,
        timestamp,
        version: Version::V2,
        entries,
        path_backing,
        extensions: Outcome::none(),
        extensions_fit: true,
    })
}

/// Returns whether each entry has a path and is greater than the one before it.
fn are_whole(entries: &EntrySlice<'_>) -> bool
    ensures { IsTrue result ↔ AreWhole entries.now }
{
    for place in 0..entries.len() {
        if !is_above(entries, place, place) {
            return false;
        }
    }
    true
}

/// Returns an index with the saved entries. It is the same index if none is left out. Memory is allocated only if the
/// entries aren't in order.
pub(crate) fn salvaged_state(mut state: State) -> Result<State, AllocError>
    ensures saved { IfOk result (λ s. IsSortedSelection (records state) (records s)) }
    ensures index { IfOk result (StaysIndex state) }
    ensures memory { IfErr result (λ _. IsOrdered (records state) → ⊥) }
{
    if are_whole(&EntrySlice::new(state.entries(), state.path_backing())) {
        return Ok(state);
    }
    state.sort_entries()?;
    Ok(firsts(state))
}

/// Returns an index with the entries to check. If those of the shared index are missing, these are the entries that
/// have a path.
fn looked_at(shared: SharedEntries, mut state: State) -> State
    ensures records { records result ≡ looked_at shared (records state) }
    ensures index { StaysIndex state result }
{
    match shared {
        SharedEntries::Missing => {
            keep_named(&mut state);
            state
        }
        SharedEntries::Unlinked => state,
        SharedEntries::Merged => state,
    }
}

impl Remains {
    /// Saves what remains of a file, with the entries of its shared index if that is given. The shared index is the
    /// index whose trailer is the id that [`Remains::shared_index`] returns.
    ///
    /// The shared index is merged, as in [`Link::dissolve_into`], if the link names one, it is given, and it matches
    /// the entries of the file. Else only the file's own entries are saved. Those that replace other entries have no
    /// path, and are left out.
    ///
    /// Git works with all saved entries, by [`entry_fault`](crate::entry_fault). Path and stage strictly increase.
    /// [`Keep`] selects the entries before the first unfit one, or all fit entries.
    ///
    /// Extensions are left out, because git creates them again. An index with an entry for a directory is still marked
    /// as sparse (gitformat-index, "Sparse Directory Entries"). The state can be written and read again: its smallest
    /// version can store all paths, and so can version 4.
    ///
    /// Memory is allocated only if entries are merged by the link's bitmaps, or if all fit entries are selected and the
    /// file's own aren't in order. It takes O(n log n) time for n entries.
    ///
    /// # Errors
    ///
    /// The only error is an allocation failure.
    pub fn save(
        self,
        alloc: Global,
        keep: Keep,
        shared: Option<State>,
    ) -> Result<Salvaged, AllocError>
        requires plain { IsPlainIndex self.front }
        requires shared { IfSome shared (CanBeShared self.front) }
        ensures saved { IfOk result (SalvagesRemains keep self (option_map contents shared)) }
        ensures acceptable { IfOk result
            (λ s. AreAcceptable (contents self.front).kind (records s.state)) }
        ensures kind { IfOk result
            (λ s. (contents s.state).kind ≡ (contents self.front).kind) }
        ensures plain { IfOk result (λ s. IsPlainIndex s.state) }
        ensures memory { IfErr result
            (λ _. MergesOrSorts keep self (option_map contents shared)) }
    {
        let Remains {
            front,
            version,
            declared,
            fault,
            has_link,
            link,
        } = self;
        let kind = front.object_hash();
        let read = front.entries().len();
        let Completed { state, shared } = with_shared(alloc, link, has_link, front, shared)?;
        let state = looked_at(shared, state);
        let first = first_unfit(
            kind,
            &EntrySlice::new(state.entries(), state.path_backing()),
        );
        let state = chosen(keep, kind, &first, state)?;
        let state = with_sparse_mark(state);
        Ok(Salvaged {
            state,
            version,
            declared,
            read,
            first,
            fault,
            shared,
        })
    }
}
