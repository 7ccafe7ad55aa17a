//! Decodes the first twelve bytes of a file, and the errors of doing so (gitformat-index, "A 12-byte header").

pub use index_decode::decode::header::{Error, decode};
