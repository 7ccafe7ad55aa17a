//! The content of an index file for programs: as one JSON object, or as one object on a line for each part. Fields have
//! the names that they have in the library.
#![tactic(auto)]

mod data;
pub mod document;
mod entries;
mod events;
pub mod lines;
mod position;
mod untracked;
mod values;

pub use document::write_json;
pub use lines::write_json_lines;
