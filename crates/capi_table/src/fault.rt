//! Why bytes aren't read.

ghost use Rattle.std.specs.Prelude.{◌≡◌};
ghost use Rattle.capi_table.specs.Faults.{wants_memory};

use gix_index::verify::tree_ids;
use gix_index::{file, write_trees};

/// Which bytes an error is about.
#[derive(Clone, Copy)]
pub enum Whose {
    /// The index's own bytes, or the link between it and its shared index.
    Own,
    /// The bytes of the shared index.
    Shared,
}

/// Why bytes aren't read.
#[derive(Drop)]
pub struct Failure {
    /// What is wrong, or that memory ran out.
    pub error: file::init::Error,
    /// The bytes that the error is about.
    pub whose: Whose,
}

/// Returns whether an error of comparing a cache tree with entries is that memory ran out.
pub(crate) fn is_want_of_memory(e: &tree_ids::Error) -> bool
    ensures { result ≡ wants_memory e.now }
{
    match e {
        tree_ids::Error::Memory => true,
        tree_ids::Error::Entries(e) => matches!(e, write_trees::Error::Memory),
        _ => false,
    }
}
