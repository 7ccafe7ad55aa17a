//! The errors of the order of entries.

ghost use Rattle.std.specs.Prelude.{◌≡◌};
ghost use Rattle.index_state.specs.declared.verify.entries.Error.TheVariants.{Memory};

use bstr::BString;
use entry_fields::entry::Stage;
use std::alloc::AllocError;
use thiserror::Error;

/// Why entries aren't in order.
#[derive(Debug, Drop, Error)]
pub enum Error {
    /// An entry isn't above the one before it, by path and then by stage.
    #[error("entry {current_index}, {current_path:?} of stage {current_stage:?}, follows \
         {previous_path:?} of stage {previous_stage:?}, but entries increase by path and stage")]
    OutOfOrder {
        /// The index of the entry, counted from 0.
        current_index: usize,
        /// The path of the entry.
        current_path: BString,
        /// The stage of the entry.
        current_stage: Stage,
        /// The path of the entry before it.
        previous_path: BString,
        /// The stage of the entry before it.
        previous_stage: Stage,
    },
    /// The names of the entries can't be allocated.
    #[error("no memory is left to name the entries that are out of order")]
    Memory,
}

impl From<AllocError> for Error {
    ghost from_gives = { λ _ error. error ≡ Memory };

    fn from(_e: AllocError) -> Error {
        Error::Memory
    }
}
