//! The parts of a file: a line for each part, or a picture to scale as SVG.
//!
//! [`write_svg`] draws the parts of a file, as `view_salvage` finds them: a bar of boxes, a legend, and a list. It
//! draws a small file part by part, and a large one by groups of parts.
#![tactic(auto)]

mod grouping;
pub mod laws;
mod legend;
pub mod map;
pub mod part;
pub mod picture;
mod scale;
mod shade;
mod text;

pub use base_text::lines::Lines;
pub use map::write_map;
pub use part::{Part, What};
pub use picture::write_svg;
