//! Searches among the rows of a table for a directory.

ghost use Rattle.std.specs.Prelude.{◌≡◌, ◌<◌, length};
ghost use Rattle.gix_index.specs.Closest.{is_below, is_directory_mode};
ghost use Rattle.gix_index.specs.Range.{is_at};
ghost use Rattle.index_c.specs.Finding.{FindsClosestRow, FindsFirst, FindsItself, RowGives, ClosestCodes};

use crate::prefix::ByPrefix;
use base_search::ordered::{part, search_within};
use capi_table::row::{Row, path_of};

/// Returns whether the row at an index has the path.
fn has_path(rows: &[Row], paths: &[u8], place: usize, path: &[u8]) -> bool
    requires { place < length rows.now }
    ensures { RowGives (is_at path.now) paths.now rows.now place result }
{
    let row = rows[place];
    path_of(&row, paths) == path
}

/// Returns whether a row of this mode represents a directory: a sparse one, or a submodule.
fn is_directory(mode: u32) -> bool
    ensures { result ≡ is_directory_mode mode }
{
    mode == 0o040000 || mode == 0o160000
}

/// Returns the first index of a row that is the directory itself, if the rows from `low` on aren't below its path.
fn first_itself(rows: &[Row], paths: &[u8], directory: &[u8], low: usize) -> Option<usize>
    ensures { FindsItself directory.now low paths.now rows.now result }
{
    for place in low..rows.len() {
        if !has_path(rows, paths, place, directory) {
            return None;
        }
        if is_directory(rows[place].mode) {
            return Some(place);
        }
    }
    None
}

/// Returns the first index of a row whose path continues after the directory and a slash.
fn first_below(rows: &[Row], paths: &[u8], directory: &[u8]) -> Option<usize>
    ensures { FindsFirst (is_below directory.now) paths.now rows.now result }
{
    let places = ByPrefix {
        rows,
        paths,
        prefix: directory,
        tail: b"/",
    };
    search_within(&places, 0, rows.len()).0.ok()
}

/// Returns the index that is closest to the directory, if there is one.
fn closest_place(rows: &[Row], paths: &[u8], directory: &[u8]) -> Option<usize>
    ensures { FindsClosestRow directory.now paths.now rows.now result }
{
    let places = ByPrefix {
        rows,
        paths,
        prefix: directory,
        tail: &[],
    };
    let low = part(&places, false).0;
    if low < rows.len() && has_path(rows, paths, low, directory) {
        return first_itself(rows, paths, directory, low);
    }
    first_below(rows, paths, directory)
}

/// Returns the index of the row that is closest to a directory, or the number of rows if there is none.
///
/// - If rows have the directory's path, this is the first that represents a directory: a sparse one, or a submodule.
/// - If no row has that path, this is the first row below the directory: its path continues after the directory and a
///   slash.
///
/// This holds of rows whose paths never decrease, as in rows that strictly increase by path, then by stage. In other
/// rows an index that is returned still is the directory's or is below it.
#[unsafe(no_mangle)]
pub extern "C" fn gix_index_closest(rows: &[Row], paths: &[u8], directory: &[u8]) -> usize
    ensures { ClosestCodes directory.now paths.now rows.now result }
{
    match closest_place(rows, paths, directory) {
        Some(place) => place,
        None => rows.len(),
    }
}
