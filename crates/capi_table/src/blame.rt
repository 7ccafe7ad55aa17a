//! Which row of a table an error of writing trees is about.

ghost use Rattle.std.specs.Prelude.{◌≡◌};
ghost use Rattle.capi_table.specs.Blaming.{blamed_path, blamed_place, is_blamed, unmade_reason, unmade_at};

use crate::row::{Row, path_of, stage_of};
use crate::spell::is_left_out;
use crate::trees::Unmade;
use crate::write::Fault;
use gix_index::write_trees::{Error, NameFault};

/// Returns the path that an error is about. If it is about two paths, returns the one that is below the other. Returns
/// an empty path if it is about none.
fn path_in(e: &Error) -> &[u8]
    ensures { result.now ≡ blamed_path e.now }
{
    match e {
        Error::Unmerged { path } => path.as_bytes(),
        Error::Mode { path, .. } => path.as_bytes(),
        Error::Path { path, .. } => path.as_bytes(),
        Error::OtherKind { path } => path.as_bytes(),
        Error::NullId { path } => path.as_bytes(),
        Error::Both { below, .. } => below.as_bytes(),
        Error::TooManyEntries | Error::Sink { .. } | Error::Memory => b"",
    }
}

/// Returns whether the row has the path, isn't left out, and is in conflict or not, as `in_conflict` requests.
fn is_blamed(row: &Row, paths: &[u8], path: &[u8], in_conflict: bool) -> bool
    ensures { result ≡ is_blamed paths.now path.now in_conflict row.now }
{
    let is_merged = stage_of(row.flags) == 0;
    let is_asked = if in_conflict { !is_merged } else { is_merged };
    !is_left_out(row) && is_asked && path_of(row, paths) == path
}

/// Returns the index of the first row that an error is about, if any.
fn place_in(e: &Error, rows: &[Row], paths: &[u8]) -> Option<usize>
    ensures { result ≡ blamed_place paths.now rows.now e.now }
{
    let path = path_in(e);
    let in_conflict = matches!(e, Error::Unmerged { .. });
    rows.iter()
        .position(|row| is_blamed(row, paths, path, in_conflict))
}

/// Returns the reason that an error gives, if the row that it is about is at the index `place`.
fn unmade_at(e: &Error, place: usize) -> Unmade
    ensures { result ≡ unmade_at e.now place }
{
    let fault = match e {
        Error::TooManyEntries => Fault::Count,
        Error::Unmerged { .. } => Fault::Unmerged(place),
        Error::Mode { .. } => Fault::Mode(place),
        Error::Path { fault, .. } => match fault {
            NameFault::Empty | NameFault::Nul | NameFault::Refused(_) => Fault::Name(place),
            NameFault::NoSlash | NameFault::TooDeep => Fault::Row(place),
        },
        Error::OtherKind { .. } | Error::NullId { .. } => Fault::Row(place),
        Error::Both { .. } => Fault::Below(place),
        Error::Sink { .. } | Error::Memory => return Unmade::Memory,
    };
    Unmade::Refused(fault)
}

/// Returns why no trees are made of these rows.
pub(crate) fn reason_of(e: &Error, rows: &[Row], paths: &[u8]) -> Unmade
    ensures { result ≡ unmade_reason paths.now rows.now e.now }
{
    unmade_at(e, place_in(e, rows, paths).unwrap_or(0))
}
