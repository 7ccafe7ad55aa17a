//! Searching the rows of a table for a directory with the case of ASCII letters ignored.

ghost use Rattle.index_c.specs.Finding.{FoldedCodes};

use capi_table::folded::closest_folded;
use capi_table::row::Row;

/// Returns the index of the first row that is a directory or is below it, with the case of ASCII letters ignored. Such
/// a directory is a sparse one or a submodule. Returns the number of rows if there is none. The rows may be in any
/// order.
#[unsafe(no_mangle)]
pub extern "C" fn gix_index_closest_icase(rows: &[Row], paths: &[u8], directory: &[u8]) -> usize
    ensures { FoldedCodes directory.now paths.now rows.now result }
{
    match closest_folded(rows, paths, directory) {
        Some(place) => place,
        None => rows.len(),
    }
}
