//! Errors of reading, writing, locking and verifying an index file.
#![tactic(auto)]

pub mod init;
pub mod lock;
pub mod verify;
pub mod write;
