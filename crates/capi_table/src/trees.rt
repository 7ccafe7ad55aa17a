//! Writing the trees of a table into a caller's rooms.

ghost use Rattle.std.specs.Prelude.{true};
ghost use Rattle.capi_table.specs.Fitting.{IsFitTable};
ghost use Rattle.capi_table.specs.Putting.{WritesTrees};
ghost use Rattle.capi_table.specs.Trees.{IfUnmade};

use crate::blame::reason_of;
use crate::collected::Collected;
use crate::row::Row;
use crate::spell::contents_of_rows;
use crate::write::{Fault, fault_in};
use entry_info::names::PathNames;
use gix_index::hash::Kind;
use std::alloc::Global;

/// A tree: its id, and the position of its bytes.
#[repr(C)]
#[derive(Clone, Copy)]
pub struct Tree {
    /// The id's bytes, followed by zeros if there are 20 of SHA-1.
    pub id: [u8; 32],
    /// The position of its first byte among the bytes of all trees.
    pub start: usize,
    /// The number of its bytes.
    pub len: usize,
}

/// How much room trees need.
#[derive(Clone, Copy)]
pub struct Counts {
    /// The number of trees.
    pub trees: usize,
    /// The number of bytes that they have together.
    pub bytes: usize,
}

/// Why no trees are returned. Both rooms are as they were.
#[derive(Clone, Copy)]
pub enum Unmade {
    /// The trees need more than one of the rooms has.
    NoRoom(Counts),
    /// The table has no trees, because of this error.
    Refused(Fault),
    /// An allocation failed.
    Memory,
}

/// Writes the trees of a table into the rooms, as `git write-tree` makes them, and returns how much they need. There is
/// a row for each directory's tree, with its id and the position of its bytes. Each tree follows those that it names,
/// and the root's is the last. Their bytes are concatenated.
///
/// Rows that are marked `REMOVE` are skipped. A row that is only intended to be added is checked as the others are, but
/// is in no tree. A row may represent a directory, and then it represents the directory's tree.
///
/// # Errors
///
/// - `NoRoom`: a room is too small for the trees.
/// - `Refused`: the table has no trees.
/// - `Memory`: an allocation failed.
///
/// After an error both rooms are as they were.
pub fn write_trees(
    alloc: Global,
    rows: &[Row],
    paths: &[u8],
    kind: Kind,
    trees: &mut [Tree],
    bytes: &mut [u8],
) -> Result<Counts, Unmade>
    ensures made { WritesTrees kind paths.now rows.now trees.old trees.new bytes.old bytes.new
        result }
    ensures memory { IfUnmade result (IsFitTable kind true paths.now rows.now) }
{
    if let Some(fault) = fault_in(rows, paths, kind, true) {
        return Err(Unmade::Refused(fault));
    }
    let Ok(state) = contents_of_rows(alloc, rows, paths, kind) else {
        return Err(Unmade::Memory);
    };
    let mut collected = Collected::new(alloc);
    match state.write_trees(alloc, &PathNames, &mut collected) {
        Ok(_) => collected.put_into(trees, bytes),
        Err(e) => Err(reason_of(&e, rows, paths)),
    }
}
