//! The options and errors of decoding an index from the bytes of a file.

pub use crate::error::Error;
use index_parts::hash::ObjectId;

/// The options of decoding.
#[derive(Clone, Copy, Debug, Default)]
pub struct Options {
    /// Has no effect: an index is read in one thread.
    pub thread_limit: Option<usize>,
    /// Has no effect, as no second thread is started.
    pub min_extension_block_in_bytes_for_threading: usize,
    /// The id that the trailer must be, unless the trailer is null.
    pub expected_checksum: Option<ObjectId>,
    /// The limit in bytes for the entries, at 96 each, and the same limit for the estimate of their paths; no limit if
    /// it is `None`. A cache tree or an untracked cache that declares more is malformed, and so `None`. The limit
    /// bounds neither the actual length of paths of version 4 nor the rounding of the allocator.
    pub alloc_limit_bytes: Option<usize>,
}
