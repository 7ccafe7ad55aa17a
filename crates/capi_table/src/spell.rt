//! The value that a table spells, if each row can be in a file.

ghost use Rattle.std.specs.Prelude.{◌≡◌, ◌↔◌, IsTrue, take};
ghost use Rattle.gix_index.specs.EntryImage.{is_removed};
ghost use Rattle.gix_index.specs.Order.{record_cmp};
ghost use Rattle.capi_table.specs.Fitting.{CanStand, HasPlainPath, IsFirstFallen, IsFirstUnfitRow, IsFitRow, falls_behind, has_git_mode, unfit_fault};
ghost use Rattle.capi_table.specs.States.{PushesRows, SpellsState};
ghost use Rattle.capi_table.specs.Table.{records_of, row_id, spelled};

use crate::row::{Row, SHA256, number_of_kind, path_of, stage_of, stat_of};
use crate::write::Fault;
use gix_index::entry::{FileTime, Flags, Mode};
use gix_index::hash::{Kind, ObjectId};
use gix_index::{BitFlags as _, State};
use std::alloc::{AllocError, Global};
use std::cmp::Ordering;

/// Returns whether the row's path is among these bytes, isn't empty, and has no NUL.
fn has_plain_path(row: &Row, paths: &[u8]) -> bool
    ensures { IsTrue result ↔ HasPlainPath paths.now row.now }
{
    row.path_start <= paths.len()
        && row.path_len <= paths.len() - row.path_start
        && row.path_len != 0
        && path_of(row, paths).iter().all(|byte| *byte != 0)
}

/// Returns whether the row is marked `REMOVE`, and so left out of a file.
pub(crate) fn is_left_out(row: &Row) -> bool
    ensures { result ≡ is_removed row.now.flags }
{
    row.flags & 0x20000 == 0x20000
}

/// Returns whether the row's mode is one of the five that git has.
fn has_git_mode(row: &Row) -> bool
    ensures { result ≡ has_git_mode row.now }
{
    Mode::from_bits_retain(row.mode)
        .to_tree_entry_mode()
        .is_some()
}

/// Returns the error of a row at this index that isn't fit for a file.
pub(crate) fn unfit_fault(row: &Row, place: usize) -> Fault
    ensures { result ≡ unfit_fault place row.now }
{
    if has_git_mode(row) {
        Fault::Row(place)
    } else {
        Fault::Mode(place)
    }
}

/// Returns whether the row can be in a file with ids of this hash algorithm, with or without the mark of a sparse
/// index.
fn can_stand(row: &Row, paths: &[u8], kind: Kind, is_sparse: bool) -> bool
    ensures { IsTrue result ↔ CanStand kind is_sparse paths.now row.now }
{
    row.kind == number_of_kind(kind)
        && row.stage == stage_of(row.flags)
        && has_git_mode(row)
        && (is_sparse || row.mode != 0o040000)
        && has_plain_path(row, paths)
}

/// Returns whether the row is left out of such a file, or can be in it.
fn is_fit(row: &Row, paths: &[u8], kind: Kind, is_sparse: bool) -> bool
    ensures { IsTrue result ↔ IsFitRow kind is_sparse paths.now row.now }
{
    is_left_out(row) || can_stand(row, paths, kind, is_sparse)
}

/// Returns the index of the first row that isn't fit for such a file, if any.
pub(crate) fn first_unfit(rows: &[Row], paths: &[u8], kind: Kind, is_sparse: bool) -> Option<usize>
    ensures { IsFirstUnfitRow kind is_sparse paths.now rows.now result }
{
    for place in 0..rows.len() {
        if !is_fit(&rows[place], paths, kind, is_sparse) {
            return Some(place);
        }
    }
    None
}

/// Returns the first twenty bytes.
fn first_twenty(bytes: &[u8; 32]) -> [u8; 20]
    ensures { result ≡ take 20 bytes.now }
{
    let mut first = [0; 20];
    first.copy_from_slice(&bytes[..20]);
    first
}

/// Returns the id of a row.
pub(crate) fn id_of(row: &Row) -> ObjectId
    ensures { result ≡ row_id row.now }
{
    if row.kind == SHA256 {
        ObjectId::Sha256(row.id)
    } else {
        ObjectId::Sha1(first_twenty(&row.id))
    }
}

/// Compares a row with another, by path, then by the stage of its flags.
fn compare(a: &Row, b: &Row, paths: &[u8]) -> Ordering
    ensures { result ≡ record_cmp (spelled paths.now a.now) (spelled paths.now b.now) }
{
    path_of(a, paths)
        .cmp(path_of(b, paths))
        .then(stage_of(a.flags).cmp(&stage_of(b.flags)))
}

/// Returns whether there is a row before this one, and this one isn't above it.
fn falls(before: Option<&Row>, row: &Row, paths: &[u8]) -> bool
    ensures { result ≡ falls_behind paths.now before.entry row.now }
{
    match before {
        Some(before) => compare(before, row, paths).is_ge(),
        None => false,
    }
}

/// Returns the index of the first row that is written and isn't above the one that is written before it, if any.
pub(crate) fn first_fallen(rows: &[Row], paths: &[u8]) -> Option<usize>
    ensures { IsFirstFallen (records_of paths.now rows.now) result }
{
    let mut before = None;
    for place in 0..rows.len() {
        let row = &rows[place];
        if is_left_out(row) {
            continue;
        }
        if falls(before, row, paths) {
            return Some(place);
        }
        before = Some(row);
    }
    None
}

/// Appends the entry of each row that isn't left out, in their order. If there is one, the extensions aren't known to
/// fit the entries then; everything else stays.
pub(crate) fn push_rows(state: &mut State, rows: &[Row], paths: &[u8]) -> Result<(), AllocError>
    ensures { PushesRows paths.now rows.now state.old state.new result }
{
    for row in rows {
        if is_left_out(row) {
            continue;
        }
        let flags = Flags::from_bits_retain(row.flags);
        let mode = Mode::from_bits_retain(row.mode);
        let path = path_of(row, paths);
        state.dangerously_push_entry(stat_of(row), id_of(row), flags, mode, path)?;
    }
    Ok(())
}

/// Returns the value that the rows spell: the records of those that aren't left out, in their order, and no extension.
/// Allocation failure is the only error.
pub(crate) fn contents_of_rows(
    alloc: Global,
    rows: &[Row],
    paths: &[u8],
    kind: Kind,
) -> Result<State, AllocError>
    ensures { SpellsState kind paths.now rows.now result }
{
    let mut state = State::new(alloc, kind, FileTime::EPOCH);
    push_rows(&mut state, rows, paths)?;
    Ok(state)
}
