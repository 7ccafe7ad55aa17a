//! Files by path: errors, content, times, and the lock under which a file is replaced. Also files in memory whose calls
//! can be made to fail, for tests.
#![tactic(auto)]

pub mod fault;
pub mod file;
pub mod folder;
pub mod lock;
mod locked;
pub mod made;
pub mod pieces;
pub mod shelf;
pub mod steps;
pub mod system;
pub mod targets;
pub mod time;
pub mod whole;

pub use shelf::{Kept, Shelf};
pub use steps::{Fault, Steps};
