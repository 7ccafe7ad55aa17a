//! Bounds the number of entries in a file, and the length of their paths.

ghost use Rattle.std.specs.Prelude.{◌≡◌, ◌<◌};
ghost use Rattle.entry_list.specs.Limits.{smallest_entry, most_entries, block_len, path_estimate, fixed_len};

use entry_list::Version;
use entry_list::sizes::{ENTRY_ALIGN, FLAGS_LEN, HEADER_LEN, NUMBERS_LEN};
use index_parts::hash::Kind;

/// The number of bytes of its path that an entry of version 4 is assumed to encode, for the estimate of the paths'
/// length.
pub const AVERAGE_V4_DELTA_PATH_LEN_IN_BYTES: usize = 80;

/// The length of an entry with an id of SHA-1, without its second flags field, its path and its padding.
const FIXED_LEN_SHA1: usize = NUMBERS_LEN + 20 + FLAGS_LEN;

/// The length of an entry with an id of SHA-256, without its second flags field, its path and its padding.
const FIXED_LEN_SHA256: usize = NUMBERS_LEN + 32 + FLAGS_LEN;

/// The length of a path of one byte and its NUL; in version 4 that of a path's number and its NUL.
const SMALLEST_PATH_LEN: usize = 2;

/// The length of the smallest entry with an id of SHA-1, which needs no padding.
const SMALLEST_LEN_SHA1: usize = FIXED_LEN_SHA1 + SMALLEST_PATH_LEN;

/// The length of the smallest entry with an id of SHA-256, without padding.
const SMALLEST_LEN_SHA256: usize = FIXED_LEN_SHA256 + SMALLEST_PATH_LEN;

/// The length of the smallest entry with an id of SHA-256, with its padding.
const SMALLEST_PADDED_LEN_SHA256: usize = (SMALLEST_LEN_SHA256 + ENTRY_ALIGN - 1) / ENTRY_ALIGN
    * ENTRY_ALIGN;

/// Returns the smallest length of an entry in bytes: that with a path of one byte.
fn smallest_entry_len(kind: Kind, version: Version) -> usize
    ensures value { result ≡ smallest_entry kind version }
    ensures some { 0 < result }
{
    match kind {
        Kind::Sha1 => SMALLEST_LEN_SHA1,
        Kind::Sha256 => match version {
            Version::V4 => SMALLEST_LEN_SHA256,
            Version::V2 | Version::V3 => SMALLEST_PADDED_LEN_SHA256,
        },
    }
}

/// Returns the number of bytes after the header that entries may use.
fn block_len(on_disk_size: usize, offset_to_extensions: Option<usize>, object_hash: Kind) -> usize
    ensures { result ≡ block_len on_disk_size offset_to_extensions object_hash }
{
    match offset_to_extensions {
        Some(offset) => offset.saturating_sub(HEADER_LEN),
        None => on_disk_size
            .saturating_sub(object_hash.len_in_bytes())
            .saturating_sub(HEADER_LEN),
    }
}

/// Returns the length of an entry in bytes, without its second flags field, its path and its padding.
fn fixed_len(object_hash: Kind) -> usize
    ensures value { result ≡ fixed_len object_hash }
    ensures small { result < 75 }
{
    match object_hash {
        Kind::Sha1 => FIXED_LEN_SHA1,
        Kind::Sha256 => FIXED_LEN_SHA256,
    }
}

/// Returns how many entries a file of `on_disk_size` bytes can have.
///
/// `offset_to_extensions` is the offset of the extensions in bytes from the start of the file, if it is known.
pub fn max_entries_possible(
    on_disk_size: usize,
    offset_to_extensions: Option<usize>,
    object_hash: Kind,
    version: Version,
) -> usize
    ensures { result ≡ most_entries on_disk_size offset_to_extensions object_hash version }
{
    let block = block_len(on_disk_size, offset_to_extensions, object_hash);
    block / smallest_entry_len(object_hash, version)
}

/// Returns an estimate of the total length in bytes of the paths of `num_entries` entries in a file of `on_disk_size`
/// bytes.
///
/// In versions 2 and 3 it is everything that the other parts of the entries leave. In version 4 it is at most 80 bytes
/// for each entry, although the paths may be longer there. `offset_to_extensions` is as in [`max_entries_possible`].
pub fn estimate_path_storage_requirements_in_bytes(
    num_entries: u32,
    on_disk_size: usize,
    offset_to_extensions: Option<usize>,
    object_hash: Kind,
    version: Version,
) -> usize
    ensures { result ≡ path_estimate num_entries on_disk_size offset_to_extensions object_hash
        version }
{
    let block = block_len(on_disk_size, offset_to_extensions, object_hash);
    let count = num_entries as usize;
    let fixed = fixed_len(object_hash);
    match version {
        Version::V2 | Version::V3 => block.saturating_sub(count * fixed),
        Version::V4 => block
            .saturating_sub(count * (fixed + SMALLEST_PATH_LEN))
            .min(AVERAGE_V4_DELTA_PATH_LEN_IN_BYTES * count),
    }
}
