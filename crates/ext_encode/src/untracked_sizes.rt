//! Computes the length in bytes of an untracked cache (gitformat-index, "Untracked cache").

ghost use Rattle.std.specs.Prelude.{◌≡◌, ◌+◌, ◌<◌, ◌≤◌, ◌^◌, length, map};
ghost use Rattle.std.specs.List.{flat_map};
ghost use Rattle.bstr.specs.Owned.{bstring_bytes};
ghost use Rattle.index_parts.specs.Numbers.{within_32};
ghost use Rattle.index_parts.specs.Offset.{offset_bytes};
ghost use Rattle.ext_untracked.specs.Blocks.{directory_value};
ghost use Rattle.ext_untracked.specs.Untracked.{cache_of};
ghost use Rattle.ext_encode.specs.UntrackedImage.{cache_bytes, directories_bytes, known_bytes};
ghost use Rattle.ext_encode.specs.UntrackedImage.{names_bytes, preamble_bytes, start_bytes, valid_id, valid_stat};

use crate::marks::Mark;
use crate::untracked_cache::file_id;
use bstr::BString;
use entry_fields::entry::Stat;
use ext_bitmap::marks;
use ext_untracked::{Directory, UntrackedCache};
use index_parts::encode;
use index_parts::hash::{Kind, ObjectId};

/// The number of bytes of a stat.
const STAT_LEN: u64 = 36;

/// The number of bytes of two stats, the flags, and the NUL after the name of the exclude files.
const FIXED_LEN: u64 = 77;

/// Returns the length in bytes of a number in git's offset encoding.
fn number_len(n: u64) -> u64
    ensures len { result ≡ length (offset_bytes n) }
    ensures few { result ≤ 10 }
{
    let (bytes, start) = encode::offset(n);
    let (_, number) = bytes.split_at(start);
    number.len() as u64
}

/// Returns the length in bytes of names, each with a NUL, or `None` if it is more than 2^32 - 1.
fn names_len(names: &[BString]) -> Option<u32>
    ensures { result ≡ within_32 (length (names_bytes (map bstring_bytes names.now))) }
{
    let mut len = 0;
    for name in names {
        let longer = u64::from(len) + name.as_bytes().len() as u64 + 1;
        if longer > u64::from(u32::MAX) {
            return None;
        }
        len = longer as u32;
    }
    Some(len)
}

/// Returns the length in bytes of a directory before its untracked names.
fn start_len(directory: &Directory) -> u64
    ensures len { result ≡ length (start_bytes (directory_value directory.now)) }
    ensures fits { result < 2 ^ 63 + 21 }
{
    number_len(directory.untracked_entries().len() as u64)
        + number_len(directory.sub_directories().len() as u64)
        + directory.name().len() as u64
        + 1
}

/// Returns the length in bytes of a stat if it is valid, and 0 otherwise.
#[tactic(auto, unfolding(crate::specs::UntrackedImage::stat_bytes))]
fn stat_len(stat: &Option<Stat>) -> u64
    ensures len { result ≡ length (valid_stat stat.now) }
    ensures few { result ≤ 36 }
{
    match stat {
        Some(_) => STAT_LEN,
        None => 0,
    }
}

/// Returns the length in bytes of an id if it is valid, and 0 otherwise.
fn id_len(id: &Option<ObjectId>) -> u64
    ensures len { result ≡ length (valid_id id.now) }
    ensures few { result ≤ 32 }
{
    match id {
        Some(id) => id.as_bytes().len() as u64,
        None => 0,
    }
}

/// Returns the length in bytes of a directory, its stat and its id, or `None` if it is more than 2^32 - 1.
fn directory_len(directory: &Directory) -> Option<u32>
    ensures { result ≡ within_32 (length (known_bytes (directory_value directory.now))) }
{
    let names = names_len(directory.untracked_entries())?;
    let valid = stat_len(&directory.stat) + id_len(&directory.exclude_file_oid);
    let len = start_len(directory) + u64::from(names) + valid;
    if len > u64::from(u32::MAX) {
        return None;
    }
    Some(len as u32)
}

/// Returns the length in bytes of directories, their stats and their ids, or `None` if it is more than 2^32 - 1.
fn blocks_len(directories: &[Directory]) -> Option<u32>
    ensures { result ≡ within_32
        (length (flat_map known_bytes (map directory_value directories.now))) }
{
    let mut len = 0;
    for directory in directories {
        let longer = u64::from(len) + u64::from(directory_len(directory)?);
        if longer > u64::from(u32::MAX) {
            return None;
        }
        len = longer as u32;
    }
    Some(len)
}

/// Returns the length in bytes of directories and of the bytes after them, or `None` if it is more than 2^32 - 1.
fn directories_len(directories: &[Directory]) -> Option<u32>
    ensures { result ≡ within_32 (length (directories_bytes (map directory_value directories.now))) }
{
    if directories.is_empty() {
        return Some(0);
    }
    let blocks = blocks_len(directories)?;
    let len = u64::from(blocks)
        + marks::content_len(directories, Mark::Valid)
        + marks::content_len(directories, Mark::CheckOnly)
        + marks::content_len(directories, Mark::HashValid)
        + 1;
    if len > u64::from(u32::MAX) {
        return None;
    }
    Some(len as u32)
}

/// Returns the length in bytes of a cache's fields before its directories, or `None` if it is more than 2^32 - 1.
fn preamble_len(cache: &UntrackedCache, kind: Kind) -> Option<u32>
    ensures { result ≡ within_32 (length (preamble_bytes kind (cache_of cache.now).preamble)) }
{
    let identifier = cache.identifier().len() as u64;
    let name = cache.exclude_filename_per_dir().len() as u64;
    if identifier > u64::from(u32::MAX) || name > u64::from(u32::MAX) {
        return None;
    }
    let info = file_id(kind, &cache.info_exclude().copied());
    let excludes = file_id(kind, &cache.excludes_file().copied());
    let ids = (info.as_bytes().len() + excludes.as_bytes().len()) as u64;
    let len = number_len(identifier) + identifier + FIXED_LEN + ids + name;
    if len > u64::from(u32::MAX) {
        return None;
    }
    Some(len as u32)
}

/// Returns the length in bytes of the extension's content with ids of the hash algorithm `kind`, or `None` if it is
/// more than 2^32 - 1. It allocates no memory.
pub fn content_len(cache: &UntrackedCache, kind: Kind) -> Option<u32>
    ensures { result ≡ within_32 (length (cache_bytes kind (cache_of cache.now))) }
{
    let preamble = preamble_len(cache, kind)?;
    let directories = directories_len(cache.directories())?;
    let count = number_len(cache.directories().len() as u64);
    let len = u64::from(preamble) + count + u64::from(directories);
    if len > u64::from(u32::MAX) {
        return None;
    }
    Some(len as u32)
}
