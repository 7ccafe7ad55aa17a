//! The git index for callers in C: each call reads, writes or takes tables in the caller's memory, and keeps no state.
//!
//! `c/gix_index.h` declares the calls and lists their numbers: statuses, hash algorithms, versions and errors. It
//! describes what a caller in C must ensure. `rust/` wraps the calls for Rust. The values that `capi_table` returns are
//! converted to numbers here.
#![tactic(auto)]

pub mod blob;
pub mod check;
pub mod closest;
pub mod compare;
pub mod fault;
pub mod find;
pub mod folded;
pub mod number;
pub mod prefix;
pub mod read;
pub mod status;
pub mod summary;
pub mod trees;
pub mod update;
pub mod version;
pub mod write;
