//! Lines of an index for programs: one for each entry, or one for each directory of a tree.
#![tactic(auto)]

mod listing;
mod trees;

pub use base_text::lines::Lines;
pub use listing::write_listing;
pub use trees::write_trees;
