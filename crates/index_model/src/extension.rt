//! The extensions of a state, from the bytes after the last entry.

ghost use Rattle.std.specs.Borrow.{sem};
ghost use Rattle.std.specs.Option.{option_copied_mut};
ghost use Rattle.std.specs.Prelude.{◌≡◌};
ghost use Rattle.index_model.specs.Lending.{LendsOwnTree};
ghost use Rattle.index_model.specs.Outcome.{no_extension, outcome_of};

pub use crate::error::Extension as Error;
use ext_small::{FsMonitor, resolve_undo};
use ext_split::link::Link;
use ext_tree::Tree;
use ext_untracked::UntrackedCache;
use std::alloc::AllocError;

/// The extensions of a state.
#[derive(Drop)]
pub struct Outcome {
    /// The cache tree.
    pub tree: Option<Tree>,
    /// The link to a shared index.
    pub link: Option<Link>,
    /// The stages of resolved conflicts.
    pub resolve_undo: Option<resolve_undo::Paths>,
    /// The untracked cache.
    pub untracked: Option<UntrackedCache>,
    /// The answer of the file system monitor.
    pub fs_monitor: Option<FsMonitor>,
    /// Whether the index is sparse.
    pub is_sparse: bool,
    /// Whether there was an end marker.
    pub had_end_of_index_marker: bool,
    /// Whether there was an offset table.
    pub had_offset_table: bool,
}

/// Returns a clone with an equal value of each extension. The error is an allocation failure.
impl Clone for Outcome {
    ghost is_clone = { λ a b. outcome_of b ≡ outcome_of a };

    fn clone(&self) -> Result<Outcome, AllocError> {
        Ok(Outcome {
            tree: self.tree.clone()?,
            link: self.link.clone()?,
            resolve_undo: self.resolve_undo.clone()?,
            untracked: self.untracked.clone()?,
            fs_monitor: self.fs_monitor.clone()?,
            is_sparse: self.is_sparse,
            had_end_of_index_marker: self.had_end_of_index_marker,
            had_offset_table: self.had_offset_table,
        })
    }
}

impl Outcome {
    /// Returns the result of reading no extensions.
    pub fn none() -> Outcome
        ensures { outcome_of result ≡ no_extension }
    {
        Outcome {
            tree: None,
            link: None,
            resolve_undo: None,
            untracked: None,
            fs_monitor: None,
            is_sparse: false,
            had_end_of_index_marker: false,
            had_offset_table: false,
        }
    }

    /// Borrows the cache tree mutably, if there is one. Everything else is unchanged.
    pub fn tree_mut(&mut self) -> Option<&mut Tree>
        ensures* writes_back { sem 𝓛 (LendsOwnTree self.entry result) }
        ensures value { option_copied_mut result ≡ self.old.tree }
    {
        self.tree.as_mut()
    }
}
