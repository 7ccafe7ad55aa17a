//! The commands of `index-tool` that print what a file holds without its shared index, or save what can be read of it.
#![tactic(auto)]

pub mod map;
pub mod map_svg;
mod mapping;
pub mod salvage;
mod shared;
pub mod show;
