//! Writing a caller's table in place of an index, with all of the index's extensions that fit the rows.

ghost use Rattle.std.specs.Prelude.{◌≡◌, [], Err, IfSome, OnOk};
ghost use Rattle.gix_index.specs.Edits.{edited};
ghost use Rattle.gix_index.specs.Order.{IsStrictlyOrdered};
ghost use Rattle.gix_index.specs.State.{PathsInStorage, contents, records};
ghost use Rattle.capi_table.specs.Fitting.{IsFitTable};
ghost use Rattle.capi_table.specs.States.{PutsTreeAnew};
ghost use Rattle.capi_table.specs.Overwriting.{HasRowsInstead, KeepsTree, PutsInPlace, Replaces, WritesOverIndex};
ghost use Rattle.capi_table.specs.declared.over.CachedTree.TheVariants.{Absent};

use crate::fault::is_want_of_memory;
use crate::read::index_of;
use crate::row::Row;
use crate::same::are_entries_of;
use crate::spell::push_rows;
use crate::write::{Format, Image, Unwritten, fault_in, options_of, put_state};
use gix_index::write::Extensions;
use gix_index::{State, file};
use std::alloc::{AllocError, Global};

/// What becomes of the cache tree extension (TREE) of an index that is written over.
#[derive(Clone, Copy)]
pub enum CachedTree {
    /// There is none to preserve, or the table was rejected before it was considered.
    Absent,
    /// It is preserved, as it matches what the rows give.
    Kept,
    /// It is left out, as it doesn't match what the rows give.
    LeftOut,
}

/// The result of writing a table in place of an index that is read.
#[derive(Clone, Copy)]
pub struct Replacement {
    /// What was written, or why nothing was.
    pub written: Result<Image, Unwritten>,
    /// What becomes of that index's cache tree.
    pub tree: CachedTree,
}

/// Returns the result for a table that isn't written, before the cache tree is considered.
fn not_written(e: Unwritten) -> Replacement
    ensures { result ≡ record { written = Err e; tree = Absent } }
{
    Replacement {
        written: Err(e),
        tree: CachedTree::Absent,
    }
}

/// Removes all entries. The extensions aren't known to fit them then; everything else stays.
fn remove_all(state: &mut State)
    ensures value { contents state.new ≡ edited (contents state.old) [] }
    ensures placed { PathsInStorage state.new }
{
    state.remove_entries(|_place, _path, _entry| true);
}

/// Replaces the entries by those of the rows that aren't left out. The extensions aren't known to fit them then;
/// everything else stays.
fn replace_all(state: &mut State, rows: &[Row], paths: &[u8]) -> Result<(), AllocError>
    ensures { OnOk result
        (HasRowsInstead (contents state.old) paths.now rows.now (contents state.new)) }
{
    remove_all(state);
    push_rows(state, rows, paths)
}

/// Replaces the entries by those of the rows, unless these are equal.
fn replace(state: &mut State, rows: &[Row], paths: &[u8]) -> Result<(), AllocError>
    ensures { OnOk result
        (Replaces (contents state.old) paths.now rows.now (contents state.new)) }
{
    if are_entries_of(rows, paths, state) {
        return Ok(());
    }
    replace_all(state, rows, paths)
}

/// Sets the cache tree again to itself, as it fits the entries.
fn put_in_anew(state: &mut State)
    ensures { PutsTreeAnew (contents state.old) (contents state.new) }
{
    if let Some(tree) = state.remove_tree() {
        state.set_tree(tree);
    }
}

/// Preserves the cache tree if it matches what the entries give, and marks it as fitting them. Otherwise removes it.
/// Returns what became of it, or `None` if memory ran out.
fn keep_tree(alloc: Global, state: &mut State) -> Option<CachedTree>
    requires { IsStrictlyOrdered (records state.old) }
    ensures { IfSome result
        (λ tree. KeepsTree (contents state.old) tree (contents state.new)) }
{
    let Some(_tree) = state.tree() else {
        return Some(CachedTree::Absent);
    };
    let e = match state.verify_tree_ids(alloc) {
        Ok(()) => {
            put_in_anew(state);
            return Some(CachedTree::Kept);
        }
        Err(e) => e,
    };
    if is_want_of_memory(&e) {
        return None;
    }
    drop(state.remove_tree());
    Some(CachedTree::LeftOut)
}

/// Writes a table that can be written in place of what was read.
fn put_fit(
    alloc: Global,
    mut state: State,
    rows: &[Row],
    paths: &[u8],
    format: &Format,
    room: &mut [u8],
) -> Replacement
    requires { IsFitTable format.now.kind (contents state).extensions.sparse paths.now rows.now }
    ensures { PutsInPlace format.now paths.now rows.now (contents state) room.old room.new result }
{
    if let Err(_) = replace(&mut state, rows, paths) {
        return not_written(Unwritten::Memory);
    }
    let Some(tree) = keep_tree(alloc, &mut state) else {
        return not_written(Unwritten::Memory);
    };
    let written = put_state(alloc, state, options_of(format, Extensions::Kept), room);
    Replacement { written, tree }
}

/// Writes a table in place of the index of these bytes, and returns the result. An error is about those bytes.
///
/// - The index's mark of a sparse index is preserved, and rows may then represent directories.
/// - Its stages of resolved conflicts are preserved.
/// - Its cache tree is preserved if it matches what the rows give.
/// - Its untracked cache and the file system monitor's response are preserved if the rows are its entries.
pub fn write_over(
    alloc: Global,
    rows: &[Row],
    paths: &[u8],
    index: &[u8],
    format: &Format,
    room: &mut [u8],
) -> Result<Replacement, file::init::Error>
    ensures { WritesOverIndex format.now index.now paths.now rows.now room.old room.new result }
{
    let state = match index_of(alloc, index, format.kind, false, None) {
        Ok(state) => state,
        Err(e) => return Err(e),
    };
    if let Some(fault) = fault_in(rows, paths, format.kind, state.is_sparse()) {
        return Ok(not_written(Unwritten::Refused(fault)));
    }
    Ok(put_fit(alloc, state, rows, paths, format, room))
}
