//! Searches among the rows of a table.

ghost use Rattle.std.specs.Prelude.{◌≡◌, map};
ghost use Rattle.gix_index.specs.Order.{key_cmp};
ghost use Rattle.index_c.specs.Finding.{BoundCodes, KeyCodes};
ghost use Rattle.capi_table.specs.Table.{records_of, spelled};

use base_search::ordered::{Ordered, part, search_within};
use capi_table::row::{Row, path_of, stage_of};
use std::cmp::Ordering;

/// Compares the row with a path and a stage.
fn compare(row: &Row, paths: &[u8], path: &[u8], stage: u32) -> Ordering
    ensures { result ≡ key_cmp path.now stage (spelled paths.now row.now) }
{
    path_of(row, paths)
        .cmp(path)
        .then(stage_of(row.flags).cmp(&stage))
}

/// Rows by path and stage, for a search.
#[derive(Clone, Copy)]
struct ByKey<'a> {
    rows: &'a [Row],
    paths: &'a [u8],
    path: &'a [u8],
    stage: u32,
}

impl Ordered for ByKey<'_> {
    ghost answers = { λ s. map (key_cmp s.path.now s.stage) (records_of s.paths.now s.rows.now) };

    fn len(&self) -> usize {
        self.rows.len()
    }

    fn compare(&self, place: usize) -> Ordering {
        compare(&self.rows[place], self.paths, self.path, self.stage)
    }
}

/// Returns the index of the row with the path and the stage, counted from 0, or the number of rows if there is none.
///
/// This holds of rows that strictly increase by path, then by stage, as those of a valid file do. In other rows an
/// index that is returned still has the path and the stage. Stages are those of the flags. The number of rows that are
/// compared is about the number of binary digits of the number of rows.
#[unsafe(no_mangle)]
pub extern "C" fn gix_index_find(rows: &[Row], paths: &[u8], path: &[u8], stage: u32) -> usize
    ensures { KeyCodes path.now stage paths.now rows.now result }
{
    let places = ByKey {
        rows,
        paths,
        path,
        stage,
    };
    match search_within(&places, 0, rows.len()).0 {
        Ok(place) => place,
        Err(_) => rows.len(),
    }
}

/// Returns the index of the row with the path and the stage. If there is none, returns the index at which it could be
/// inserted so that rows stay in order. This is the number of rows that are before both.
///
/// This holds of the rows that [`gix_index_find`] takes. For other rows it is at most their number.
#[unsafe(no_mangle)]
pub extern "C" fn gix_index_lower_bound(
    rows: &[Row],
    paths: &[u8],
    path: &[u8],
    stage: u32,
) -> usize
    ensures { BoundCodes path.now stage paths.now rows.now result }
{
    let places = ByKey {
        rows,
        paths,
        path,
        stage,
    };
    part(&places, false).0
}
