//! Giving the trees of a caller's table.

ghost use Rattle.std.specs.Prelude.{◌≡◌, ◌≤◌};
ghost use Rattle.index_c.specs.Giving.{TreesCodes, counts_report, error_report};
ghost use Rattle.index_c.specs.Writes.{GivesTrees};

use crate::fault::number_of_table;
use crate::number::kind_of;
use crate::status::{DONE, MEMORY, NO_ROOM, REFUSED, WRONG_NUMBER};
use capi_table::row::Row;
use capi_table::trees::{Counts, Tree, Unmade, write_trees};
use std::alloc::Global;

/// What a call that gives trees reports in addition to its status.
#[repr(C)]
#[derive(Clone, Copy)]
pub struct Given {
    /// The number of trees.
    pub trees: usize,
    /// The number of bytes that they have together.
    pub bytes: usize,
    /// The index of the row that the error names, or 0.
    pub fault_place: usize,
    /// The error's number, or 0.
    pub fault: u32,
}

/// Returns the report of these numbers of trees and bytes.
fn told_of_counts(counts: &Counts) -> Given
    ensures { result ≡ counts_report counts.now }
{
    Given {
        trees: counts.trees,
        bytes: counts.bytes,
        fault_place: 0,
        fault: 0,
    }
}

/// Returns the report of an error with an index.
fn told_of_fault(fault: u32, fault_place: usize) -> Given
    ensures { result ≡ error_report fault fault_place }
{
    Given {
        trees: 0,
        bytes: 0,
        fault_place,
        fault,
    }
}

/// Reports the result of writing trees, and returns the status.
fn tell(written: &Result<Counts, Unmade>, told: &mut Given) -> u32
    ensures status { result ≤ NO_ROOM }
    ensures told { TreesCodes written.now result told.new }
{
    let (status, said) = match written {
        Ok(counts) => (DONE, told_of_counts(counts)),
        Err(Unmade::NoRoom(counts)) => (NO_ROOM, told_of_counts(counts)),
        Err(Unmade::Refused(fault)) => {
            let fault = number_of_table(*fault);
            (REFUSED, told_of_fault(fault.number, fault.place))
        }
        Err(Unmade::Memory) => (MEMORY, told_of_fault(0, 0)),
    };
    *told = said;
    status
}

/// Gives the trees that `git write-tree` makes of a table: a row for each directory's tree, with its id, and its bytes.
/// Each tree follows those that it names, and the root's is the last. Their bytes are concatenated.
///
/// Rows that are marked `REMOVE` are skipped. A row that is only intended to be added is checked as the others are, but
/// is in no tree. A row may represent a directory, as in a sparse index, and then it represents the directory's tree.
///
/// - `DONE`: the rooms begin with the trees and the bytes.
/// - `NO_ROOM`: they need more, and how much is reported.
/// - `REFUSED`: the first row that can't be in a file (`ROW`, `MODE`) or isn't above the one before it (`ORDER`).
///   Otherwise the first row that can't be in a tree:
///     - it is in conflict (`UNMERGED`);
///     - git doesn't allow a name of its path (`NAME`);
///     - its path is below another's (`BELOW`);
///     - its id is zeros, or it is below more than 2048 directories (`ROW`);
///     - it represents a directory, and its path doesn't end with a slash (`ROW`).
/// - `REFUSED` with `COUNT`: there are more than 2147483647 rows.
/// - `MEMORY`: an allocation failed. Each row can be in a file, and they are in order.
/// - `WRONG_NUMBER`: the hash algorithm is invalid.
///
/// With each status except `DONE` both rooms are as they were. The report is always written.
#[unsafe(no_mangle)]
pub extern "C" fn gix_index_trees(
    alloc: Global,
    rows: &[Row],
    paths: &[u8],
    kind: u32,
    trees: &mut [Tree],
    bytes: &mut [u8],
    told: &mut Given,
) -> u32
    ensures { GivesTrees kind paths.now rows.now trees.old trees.new bytes.old bytes.new told.new
        result }
{
    let Some(kind) = kind_of(kind) else {
        *told = told_of_fault(0, 0);
        return WRONG_NUMBER;
    };
    let written = write_trees(alloc, rows, paths, kind, trees, bytes);
    tell(&written, told)
}
