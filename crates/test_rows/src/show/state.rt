//! Formats a state with all values that were read.

use super::{extension, untracked};
use gix_index::State;
use gix_index::hash::ObjectId;
use test_row_kit::Lines;
use test_row_kit::show::{Item, OrNone, kind_of, version_of, yes};

/// Appends the id at the end of the file, the properties of the state, and the number of entries.
pub fn heading(out: &mut Lines, state: &State, checksum: Option<ObjectId>) {
    out.put("checksum", OrNone(checksum));
    out.put("version", version_of(state.version()));
    out.put("object_hash", kind_of(state.object_hash()));
    out.put("is_sparse", yes(state.is_sparse()));
    out.put(
        "had_end_of_index_marker",
        yes(state.had_end_of_index_marker()),
    );
    out.put("had_offset_table", yes(state.had_offset_table()));
    out.put("entries", state.entries().len());
}

/// Appends all values of a state: its heading, its entries and its extensions.
pub fn state(out: &mut Lines, state: &State, checksum: Option<ObjectId>) {
    heading(out, state, checksum);
    for (place, entry) in state.entries().iter().enumerate() {
        let path = entry.path(state);
        writeln!(out, "entry {place}: {}", Item { path, entry });
    }
    extension::tree(out, state.tree());
    extension::link(out, state.link());
    extension::resolve_undo(out, state.resolve_undo().map(|paths| paths.as_slice()));
    untracked::untracked(out, state.untracked());
    extension::monitor(out, state.fs_monitor());
}
