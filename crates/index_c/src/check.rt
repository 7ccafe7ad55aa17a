//! Checking that an index is in order and that its cache tree is consistent, with or without its shared index.

ghost use Rattle.std.specs.Prelude.{◌≡◌};
ghost use Rattle.gix_index.specs.State.{contents};
ghost use Rattle.index_c.specs.Checking.{IsCheckResult, IsJudged, CheckCodes, FlawCodes, flaw_number, flaw_place, order_place, tree_place};
ghost use Rattle.index_c.specs.Reads.{ChecksIndexBytes, ChecksSplit, FindsOfBoth, FindsOfIndex};
ghost use Rattle.index_c.specs.Statuses.{SummaryCodes};
ghost use Rattle.index_c.specs.Summaries.{HasText};

use crate::fault::{CACHED_TREE, ORDER, put_fault};
use crate::number::kind_of;
use crate::status::{DONE, MEMORY, REFUSED};
use crate::summary::{Summary, blank, summary_of, tell_failure, tell_wrong_number};
use capi_table::fault::{Failure, Whose};
use capi_table::read::{Sizes, index_of, sizes_of};
use capi_table::split::both_of;
use gix_index::State;
use gix_index::extension::tree;
use gix_index::hash::Kind;
use gix_index::object::NoObjects;
use gix_index::verify::entries;
use std::alloc::Global;

/// Why a state that was read isn't valid.
#[derive(Drop)]
enum Flaw {
    /// Its entries aren't in order.
    Order(entries::Error),
    /// Its cache tree is inconsistent.
    CachedTree(tree::verify::Error),
}

/// The result of a check of a state that was read.
#[derive(Drop)]
struct Found {
    /// The sizes of the state, without the number of bytes of its paths.
    sizes: Sizes,
    /// Whether the state is valid.
    judged: Result<(), Flaw>,
}

/// Returns the index of the entry that is out of order, or `None` if memory was too short to name it.
fn order_place(e: &entries::Error) -> Option<usize>
    ensures { result ≡ order_place e.now }
{
    match e {
        entries::Error::OutOfOrder { current_index, .. } => Some(*current_index),
        entries::Error::Memory => None,
    }
}

/// Returns the index 0 for an error of the cache tree, or `None` if memory was too short to name it.
fn tree_place(e: &tree::verify::Error) -> Option<usize>
    ensures { result ≡ tree_place e.now }
{
    match e {
        tree::verify::Error::Memory => None,
        _ => Some(0),
    }
}

/// Returns the index that is reported for a flaw, or `None` if memory was too short to name it.
fn flaw_place(flaw: &Flaw) -> Option<usize>
    ensures { result ≡ flaw_place flaw.now }
{
    match flaw {
        Flaw::Order(e) => order_place(e),
        Flaw::CachedTree(e) => tree_place(e),
    }
}

/// Returns the number of a flaw.
fn flaw_number(flaw: &Flaw) -> u32
    ensures { result ≡ flaw_number flaw.now }
{
    match flaw {
        Flaw::Order(_) => ORDER,
        Flaw::CachedTree(_) => CACHED_TREE,
    }
}

/// Writes the text of a flaw, and returns how many bytes were written.
fn put_flaw(alloc: Global, flaw: &Flaw, text: &mut [u8]) -> usize
    ensures { HasText result text.old text.new }
{
    match flaw {
        Flaw::Order(e) => put_fault(alloc, e, text),
        Flaw::CachedTree(e) => put_fault(alloc, e, text),
    }
}

/// Checks that a state is valid, and returns why not if it isn't.
fn judge(alloc: Global, state: &State) -> Result<(), Flaw>
    ensures { IsJudged result (contents state.now) }
{
    if let Err(e) = state.verify_entries() {
        return Err(Flaw::Order(e));
    }
    if let Err(e) = state.verify_extensions(alloc, false, &NoObjects) {
        return Err(Flaw::CachedTree(e));
    }
    Ok(())
}

/// Returns the result of a check of a state.
fn found_of(alloc: Global, state: &State) -> Found
    ensures { IsCheckResult result (contents state.now) }
{
    Found {
        sizes: sizes_of(state, state.entries().len(), 0),
        judged: judge(alloc, state),
    }
}

/// Checks the index of these bytes. An error is why they can't be read.
fn check_index(alloc: Global, bytes: &[u8], kind: Kind, skip_hash: bool) -> Result<Found, Failure>
    ensures { FindsOfIndex skip_hash kind bytes.now result }
{
    match index_of(alloc, bytes, kind, skip_hash, None) {
        Ok(state) => Ok(found_of(alloc, &state)),
        Err(error) => Err(Failure {
            error,
            whose: Whose::Own,
        }),
    }
}

/// Checks the index of these bytes, joined to the shared index that they link to. An error is why they can't be read or
/// joined.
fn checked_both(
    alloc: Global,
    bytes: &[u8],
    shared: &[u8],
    kind: Kind,
    skip_hash: bool,
) -> Result<Found, Failure>
    ensures { FindsOfBoth skip_hash kind bytes.now shared.now result }
{
    match both_of(alloc, bytes, shared, kind, skip_hash) {
        Ok(state) => Ok(found_of(alloc, &state)),
        Err(failure) => Err(failure),
    }
}

/// Reports why a state isn't valid, and returns the status. If no index is named, it reports that memory was too short
/// to name the flaw.
fn tell_flaw(
    alloc: Global,
    sizes: &Sizes,
    flaw: &Flaw,
    text: &mut [u8],
    summary: &mut Summary,
) -> u32
    ensures { SummaryCodes MEMORY (FlawCodes flaw.now sizes.now) result summary.new text.old
        text.new }
{
    let text_bytes = put_flaw(alloc, flaw, text);
    let Some(fault_place) = flaw_place(flaw) else {
        *summary = Summary {
            text_bytes,
            ..blank()
        };
        return MEMORY;
    };
    *summary = Summary {
        text_bytes,
        fault_place,
        fault: flaw_number(flaw),
        ..summary_of(sizes)
    };
    REFUSED
}

/// Reports the result of a check, and returns the status.
fn tell(
    alloc: Global,
    checked: &Result<Found, Failure>,
    text: &mut [u8],
    summary: &mut Summary,
) -> u32
    ensures { SummaryCodes MEMORY (CheckCodes checked.now) result summary.new text.old text.new }
{
    let found = match checked {
        Ok(found) => found,
        Err(failure) => return tell_failure(alloc, failure, text, summary),
    };
    if let Err(flaw) = &found.judged {
        return tell_flaw(alloc, &found.sizes, flaw, text, summary);
    }
    *summary = summary_of(&found.sizes);
    DONE
}

/// Checks an index, given as all bytes of its file.
///
/// - The bytes are read as `gix_index_read` reads them. A link to a shared index isn't followed.
/// - The entries must increase strictly by path, then by stage.
/// - The cache tree, if there is one, must be consistent and must count no more entries than there are.
///
/// The status:
///
/// - `DONE`: the index passes.
/// - `REFUSED`: the bytes are no index with this hash algorithm. Or the error is `ORDER`, and `fault_place` is that of
///   the first entry that isn't above the one before it. Or it is `CACHED_TREE`, and the entries are in order.
/// - `MEMORY`: an allocation failed.
/// - `WRONG_NUMBER`: the hash algorithm is invalid.
///
/// The summary is always written. What follows the text is never changed.
#[unsafe(no_mangle)]
pub extern "C" fn gix_index_check(
    alloc: Global,
    bytes: &[u8],
    kind: u32,
    skip_hash: bool,
    text: &mut [u8],
    summary: &mut Summary,
) -> u32
    ensures { ChecksIndexBytes kind skip_hash bytes.now summary.new text.old text.new result }
{
    let Some(kind) = kind_of(kind) else {
        return tell_wrong_number(summary);
    };
    let found = check_index(alloc, bytes, kind, skip_hash);
    tell(alloc, &found, text, summary)
}

/// Checks an index with the shared index that it links to, each given as all bytes of its file. Both are read and
/// joined as `gix_index_read_split` does. The result is checked as `gix_index_check` checks an index.
///
/// If there is no link, or its id is zeros, the shared bytes aren't read. With `DONE` the summary has no link.
///
/// - `DONE`: the index passes.
/// - `REFUSED`: the error is one that `gix_index_read_split` reports. Or it is `ORDER`, and `fault_place` is that of
///   the first entry of both that isn't above the one before it. Or it is `CACHED_TREE`, and the entries of both are in
///   order.
///
/// Everything else is as in `gix_index_check`.
#[unsafe(no_mangle)]
pub extern "C" fn gix_index_check_split(
    alloc: Global,
    bytes: &[u8],
    shared: &[u8],
    kind: u32,
    skip_hash: bool,
    text: &mut [u8],
    summary: &mut Summary,
) -> u32
    ensures { ChecksSplit kind skip_hash bytes.now shared.now summary.new text.old text.new result }
{
    let Some(kind) = kind_of(kind) else {
        return tell_wrong_number(summary);
    };
    let found = checked_both(alloc, bytes, shared, kind, skip_hash);
    tell(alloc, &found, text, summary)
}
