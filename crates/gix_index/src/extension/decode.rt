//! The errors in an extension that a reader has to understand (gitformat-index, "Extensions").

pub use index_model::extension::Error;
