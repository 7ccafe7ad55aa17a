//! Decodes entries into a list, and bounds the number of entries and the bytes of their paths.

pub use entry_decode::entries::{FirstEntries, entries_in};
pub use index_decode::decode::entries::{
    AVERAGE_V4_DELTA_PATH_LEN_IN_BYTES, estimate_path_storage_requirements_in_bytes,
    max_entries_possible,
};
