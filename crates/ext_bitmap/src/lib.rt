//! Reads and writes the bitmaps of extensions (git's bitmap-format document, "Serialization format for an EWAH
//! bitmap").
//!
//! A bitmap that was read is written in its own words. A bitmap that is made of bits is written in the words of git's
//! encoder.
#![tactic(auto)]

pub mod encoding;
pub mod ewah;
pub mod laws;
pub mod marks;
pub mod pieces;
pub mod ranges;
pub mod write;
