//! What the arguments of `index-tool` leave out: which file is the index, and which hash algorithm its ids have.
#![tactic(auto)]

pub mod config;
mod error;
pub mod kind;
pub mod place;
mod repository;
mod trailer;

pub use config::format_of;
pub use error::{Error, FirstBytes};
pub use kind::kind_at;
pub use place::{Surroundings, index_path};
