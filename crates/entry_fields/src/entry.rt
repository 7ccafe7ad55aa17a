//! The fields of an entry except its path and its id: flags, a mode and stat numbers.

pub mod at_rest;
mod flags;
pub mod mode;
pub mod stat;

pub use flags::{Flags, Stage, StageRaw};
pub use mode::Mode;
pub use stat::{FileTime, Stat};
