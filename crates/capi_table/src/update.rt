//! Changes of an index, which are the rows of a caller's table.

ghost use Rattle.std.specs.Prelude.{◌≡◌, IfOk};
ghost use Rattle.entry_info.specs.Text.{change_value};
ghost use Rattle.capi_table.specs.States.{MakesChanges};
ghost use Rattle.capi_table.specs.Refusing.{WritesUpdate, table_change_fault, order_reason};
ghost use Rattle.capi_table.specs.Updating.{AreSaidBy, change_said, update_options, kept_version, row_entry};

use crate::fault::Failure;
use crate::row::{Row, path_of, stat_of};
use crate::spell::{first_unfit, id_of, is_left_out, unfit_fault};
use crate::split::both_of;
use crate::write::{Fault, Image, Unwritten, put_state};
use entry_info::names::PathNames;
use gix_index::change::{ApplyError, Change};
use gix_index::decode::entry::Pathless;
use gix_index::entry::{Flags, Mode};
use gix_index::hash::Kind;
use gix_index::verify::entries;
use gix_index::write::{Extensions, Options, VersionChoice};
use gix_index::{BitFlags as _, ChangeError, State, Version};
use std::alloc::{AllocError, Global};

/// Returns all of a row's entry except its path.
fn entry_of(row: &Row) -> Pathless
    ensures { result ≡ row_entry row.now }
{
    Pathless {
        stat: stat_of(row),
        id: id_of(row),
        flags: Flags::from_bits_retain(row.flags),
        mode: Mode::from_bits_retain(row.mode),
    }
}

/// Returns the change that a row represents.
fn change_of<'a>(row: &Row, paths: &'a [u8]) -> Change<'a>
    ensures { change_value result ≡ change_said paths.now row.now }
{
    let path = path_of(row, paths);
    if is_left_out(row) {
        return Change::Unstage { path };
    }
    let entry = entry_of(row);
    Change::Stage { entry, path }
}

/// Returns the changes that rows represent, with borrowed paths.
fn changes_of<'a>(
    alloc: Global,
    rows: &[Row],
    paths: &'a [u8],
) -> Result<Vec<Change<'a>>, AllocError>
    ensures { IfOk result (λ cs. AreSaidBy paths.now rows.now cs.items) }
{
    let mut changes = Vec::with_capacity(alloc, rows.len())?;
    for row in rows {
        changes.push(change_of(row, paths))?;
    }
    Ok(changes)
}

/// Returns why nothing is made of entries that aren't in order.
fn unordered(e: &entries::Error) -> Unwritten
    ensures { result ≡ order_reason e.now }
{
    match e {
        entries::Error::OutOfOrder { current_index, .. } => {
            Unwritten::Refused(Fault::Order(*current_index))
        }
        entries::Error::Memory => Unwritten::Memory,
    }
}

/// Returns the error of a change at an index that isn't made.
fn change_fault(at: usize, cause: &ChangeError) -> Fault
    ensures { result ≡ table_change_fault at cause.now }
{
    match cause {
        ChangeError::Mode { .. } => Fault::Mode(at),
        ChangeError::EmptyName | ChangeError::Name { .. } => Fault::Name(at),
        ChangeError::InWholeDirectory => Fault::Below(at),
        _ => Fault::Row(at),
    }
}

/// Makes the changes of the rows in an index, all or none, as `State::apply` makes them.
fn make_changes(
    alloc: Global,
    kind: Kind,
    state: &mut State,
    rows: &[Row],
    paths: &[u8],
) -> Result<(), Unwritten>
    ensures { MakesChanges kind paths.now rows.now state.old state.new result }
{
    if let Err(e) = state.verify_entries() {
        return Err(unordered(&e));
    }
    if let Some(place) = first_unfit(rows, paths, kind, state.is_sparse()) {
        return Err(Unwritten::Refused(unfit_fault(&rows[place], place)));
    }
    let Ok(changes) = changes_of(alloc, rows, paths) else {
        return Err(Unwritten::Memory);
    };
    match state.apply(&PathNames, &changes) {
        Ok(()) => Ok(()),
        Err(ApplyError::Refused { at, cause }) => {
            Err(Unwritten::Refused(change_fault(at, &cause)))
        }
        Err(ApplyError::Memory) => Err(Unwritten::Memory),
    }
}

/// Returns the version in which an index that was read in this version is written again.
fn kept_version(version: Version) -> VersionChoice
    ensures { result ≡ kept_version version }
{
    match version {
        Version::V4 => VersionChoice::V4,
        Version::V2 | Version::V3 => VersionChoice::Smallest,
    }
}

/// Returns the options with which an index that was read in this version is written again.
fn kept_options(version: Version) -> Options
    ensures { result ≡ update_options version }
{
    Options {
        extensions: Extensions::Kept,
        version: kept_version(version),
        skip_hash: false,
    }
}

/// Changes the index of these bytes, and writes it into the room, in its version and with its checksum. The changes are
/// made one after another. A row stages its entry at its path and stage, and one that is marked `REMOVE` removes its
/// path.
///
/// The bytes are joined to the shared index that they link to, as `both_of` joins them; what is written links to none.
/// Extensions that depend on the entries are preserved as by `State::apply`. The outer error is about the bytes.
pub fn update(
    alloc: Global,
    rows: &[Row],
    paths: &[u8],
    index: &[u8],
    shared: &[u8],
    kind: Kind,
    room: &mut [u8],
) -> Result<Result<Image, Unwritten>, Failure>
    ensures { WritesUpdate kind index.now shared.now paths.now rows.now room.old room.new result }
{
    let mut state = match both_of(alloc, index, shared, kind, false) {
        Ok(state) => state,
        Err(failure) => return Err(failure),
    };
    if let Err(e) = make_changes(alloc, kind, &mut state, rows, paths) {
        return Ok(Err(e));
    }
    let options = kept_options(state.version());
    Ok(put_state(alloc, state, options, room))
}
