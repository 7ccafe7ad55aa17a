//! Searching a caller's table for a directory with the case of ASCII letters ignored.

ghost use Rattle.std.specs.Prelude.{◌≡◌, ◌<◌, ◌↔◌, IsTrue, length, slice_index_or, true};
ghost use Rattle.gix_index.specs.Searching.Folded.{stands_in_folded};
ghost use Rattle.capi_table.specs.Folding.{first_folded, is_below_folded};
ghost use Rattle.capi_table.specs.Table.{spelled};

use crate::row::{Row, path_of};

/// Returns whether a path has a slash at this position.
fn has_slash_at(path: &[u8], at: usize) -> bool
    ensures { IsTrue result ↔ ((at < length path.now) × (slice_index_or path.now at 0 ≡ 47)) }
{
    at < path.len() && path[at] == b'/'
}

/// Returns whether a path continues after a directory and a slash, with case ignored.
fn is_below(path: &[u8], directory: &[u8]) -> bool
    ensures { result ≡ is_below_folded directory.now path.now }
{
    let len = directory.len();
    has_slash_at(path, len) && path[..len].eq_ignore_ascii_case(directory)
}

/// Returns whether the row is the directory itself, a sparse one or a submodule, or is below it, with case ignored.
fn stands_in(row: &Row, paths: &[u8], directory: &[u8]) -> bool
    ensures { result ≡ stands_in_folded true directory.now (spelled paths.now row.now) }
{
    let path = path_of(row, paths);
    let is_directory = row.mode == 0o040000 || row.mode == 0o160000;
    (is_directory && path.eq_ignore_ascii_case(directory)) || is_below(path, directory)
}

/// Returns the index of the first row that is the directory itself, a sparse one or a submodule, or is below it. The
/// case of ASCII letters is ignored. The rows may be in any order, and each is compared up to that one.
pub fn closest_folded(rows: &[Row], paths: &[u8], directory: &[u8]) -> Option<usize>
    ensures { result ≡ first_folded directory.now paths.now rows.now }
{
    rows.iter().position(|row| stands_in(row, paths, directory))
}
