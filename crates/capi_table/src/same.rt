//! Whether a table has the entries of an index.

ghost use Rattle.std.specs.Prelude.{◌↔◌, IsTrue};
ghost use Rattle.gix_index.specs.Record.{record_in};
ghost use Rattle.gix_index.specs.State.{records};
ghost use Rattle.capi_table.specs.Overwriting.{AreRowEntries, SpellsThis};

use crate::row::{Row, path_of, stat_of};
use crate::spell::{id_of, is_left_out};
use gix_index::{BitFlags as _, Entry, PathStorageRef, State};

/// Returns whether the row isn't left out, and spells the entry.
fn is_row_of(row: &Row, paths: &[u8], entry: &Entry, storage: PathStorageRef<'_>) -> bool
    ensures { IsTrue result ↔ SpellsThis paths.now row.now (record_in storage.now entry.now) }
{
    !is_left_out(row)
        && row.flags == entry.flags.bits()
        && row.mode == entry.mode.bits()
        && stat_of(row) == entry.stat
        && id_of(row) == entry.id
        && path_of(row, paths) == entry.path_in(storage)
}

/// Returns whether the rows are the entries of a state, one by one, and none is left out.
pub(crate) fn are_entries_of(rows: &[Row], paths: &[u8], state: &State) -> bool
    ensures { IsTrue result ↔ AreRowEntries (records state.now) paths.now rows.now }
{
    let (entries, storage) = (state.entries(), state.path_backing());
    if rows.len() != entries.len() {
        return false;
    }
    for place in 0..rows.len() {
        if !is_row_of(&rows[place], paths, &entries[place], storage) {
            return false;
        }
    }
    true
}
