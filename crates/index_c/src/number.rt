//! Hash algorithms, versions and cache trees as numbers.

ghost use Rattle.std.specs.Prelude.{◌≡◌};
ghost use Rattle.index_c.specs.Numbers.{choice_numbered, kind_numbered, tree_number, whose_number};

use capi_table::fault::Whose;
use capi_table::over::CachedTree;
use capi_table::row::{SHA1, SHA256};
use gix_index::hash::Kind;
use gix_index::write::VersionChoice;

/// The report is about the index's own bytes.
pub const OWN: u32 = 0;
/// The report is about the bytes of the shared index.
pub const OF_SHARED: u32 = 1;

/// There was no cache tree extension to preserve.
pub const NO_TREE: u32 = 0;
/// The cache tree extension is preserved.
pub const TREE_KEPT: u32 = 1;
/// The cache tree extension is left out, as it doesn't match the rows.
pub const TREE_LEFT_OUT: u32 = 2;

/// Returns the hash algorithm with this number, or `None` if no algorithm has it.
pub fn kind_of(number: u32) -> Option<Kind>
    ensures { result ≡ kind_numbered number }
{
    match number {
        SHA1 => Some(Kind::Sha1),
        SHA256 => Some(Kind::Sha256),
        _ => None,
    }
}

/// Returns the version that a number requests, or `None` if the number requests none.
pub fn choice_of(number: u32) -> Option<VersionChoice>
    ensures { result ≡ choice_numbered number }
{
    match number {
        2 | 3 => Some(VersionChoice::Smallest),
        4 => Some(VersionChoice::V4),
        _ => None,
    }
}

/// Returns as a number whether a report is about the shared index.
pub fn number_of_whose(whose: Whose) -> u32
    ensures { result ≡ whose_number whose }
{
    match whose {
        Whose::Own => OWN,
        Whose::Shared => OF_SHARED,
    }
}

/// Returns as a number what happens to a cache tree extension.
pub fn number_of_tree(tree: CachedTree) -> u32
    ensures { result ≡ tree_number tree }
{
    match tree {
        CachedTree::Absent => NO_TREE,
        CachedTree::Kept => TREE_KEPT,
        CachedTree::LeftOut => TREE_LEFT_OUT,
    }
}
