//! Reads the untracked cache of an index: directories, and the files in them that the index doesn't contain
//! (gitformat-index, "Untracked cache").
#![tactic(auto)]

ghost use Rattle.std.specs.Prelude.{◌≡◌, IfOk, IfErr, map};
ghost use Rattle.std.specs.Option.{option_map};
ghost use Rattle.bstr.specs.Owned.{bstring_bytes};
ghost use Rattle.ext_untracked.specs.Blocks.{directory_value};
ghost use Rattle.index_extensions.specs.ExtensionValue.{IsRead};
ghost use Rattle.ext_untracked.specs.Untracked.{AreDirectories, IsCache, HasFirstHead, HasStart, cache_of};

use bitmaps::read_bitmaps;
use blocks::read_block;
use bstr::BString;
use entry_fields::entry::Stat;
use index_extensions::Signature;
use index_parts::hash::{Kind, ObjectId};
use preamble::{directory_count_of, ends_with_nul, preamble_of};
use std::alloc::{AllocError, Global};

mod bitmaps;
mod blocks;
pub mod invalidation;
mod preamble;
mod stat;

/// The signature of the extension.
pub const SIGNATURE: Signature = *b"UNTR";

/// The maximum number of levels of directories below the root.
const MAX_LEVELS: u32 = 2048;

/// The stat numbers of a file of exclude patterns, and the id of its content.
#[derive(Clone, Copy, Debug, PartialEq, Eq)]
pub struct OidStat {
    /// The stat numbers of the file.
    pub stat: Stat,
    /// The id of the file's content. It isn't null if the cache was read.
    pub id: ObjectId,
}

impl OidStat {
    /// Returns the stat numbers of the file.
    pub fn stat(&self) -> &Stat
        ensures { result.now ≡ self.now.stat }
    {
        &self.stat
    }

    /// Returns the id of the file's content.
    pub fn id(&self) -> ObjectId
        ensures { result ≡ self.now.id }
    {
        self.id
    }
}

/// A directory with its untracked files and directories, and its subdirectories (gitformat-index, "Untracked cache").
#[derive(Debug, PartialEq, Eq, Drop)]
pub struct Directory {
    /// The directory's name within its parent; the root's is empty.
    pub name: BString,
    /// The names of its untracked files and directories.
    pub untracked_entries: Vec<BString>,
    /// Its subdirectories, by their indices in the list of all directories, counted from 0.
    pub sub_directories: Vec<usize>,
    /// The stat numbers of the directory. `None` if they aren't valid.
    pub stat: Option<Stat>,
    /// The id of its own file of exclude patterns. `None` if that isn't valid.
    pub exclude_file_oid: Option<ObjectId>,
    /// Whether the directory was only checked for whether it has untracked files.
    pub check_only: bool,
}

/// Returns a directory with the same value. It takes as much memory as its source, and fails if that can't be
/// allocated.
impl Clone for Directory {
    ghost is_clone = { λ d e. directory_value e ≡ directory_value d };

    fn clone(&self) -> Result<Directory, AllocError> {
        Ok(Directory {
            name: self.name.clone()?,
            untracked_entries: self.untracked_entries.clone()?,
            sub_directories: self.sub_directories.clone()?,
            stat: self.stat,
            exclude_file_oid: self.exclude_file_oid,
            check_only: self.check_only,
        })
    }
}

impl Directory {
    /// Returns the directory's name within its parent; the root's is empty.
    pub fn name(&self) -> &[u8]
        ensures { result.now ≡ (directory_value self.now).name }
    {
        self.name.as_bytes()
    }

    /// Returns the names of its untracked files and directories.
    pub fn untracked_entries(&self) -> &[BString]
        ensures { map bstring_bytes result.now ≡ (directory_value self.now).untracked }
    {
        &self.untracked_entries
    }

    /// Returns its subdirectories, by their indices in the list of all directories, counted from 0.
    pub fn sub_directories(&self) -> &[usize]
        ensures { result.now ≡ (directory_value self.now).subs }
    {
        &self.sub_directories
    }

    /// Returns the stat numbers of the directory, or `None` if they aren't valid.
    pub fn stat(&self) -> Option<&Stat>
        ensures { option_map (λ s. s.now) result ≡ (directory_value self.now).stat }
    {
        self.stat.as_ref()
    }

    /// Returns the id of its own file of exclude patterns, or `None` if that isn't valid.
    pub fn exclude_file_oid(&self) -> Option<ObjectId>
        ensures { result ≡ (directory_value self.now).exclude }
    {
        self.exclude_file_oid
    }

    /// Returns whether the directory was only checked for whether it has untracked files.
    pub fn check_only(&self) -> bool
        ensures { result ≡ (directory_value self.now).check_only }
    {
        self.check_only
    }
}

/// The untracked files that were known when the index was written (gitformat-index, "Untracked cache").
#[derive(Debug, PartialEq, Eq, Drop)]
pub struct UntrackedCache {
    identifier: BString,
    info_exclude: Option<OidStat>,
    excludes_file: Option<OidStat>,
    exclude_filename_per_dir: BString,
    dir_flags: u32,
    directories: Vec<Directory>,
}

/// Returns a cache with the same value. It takes as much memory as its source, and fails if that can't be allocated.
impl Clone for UntrackedCache {
    ghost is_clone = { λ u v. cache_of v ≡ cache_of u };

    fn clone(&self) -> Result<UntrackedCache, AllocError> {
        Ok(UntrackedCache {
            identifier: self.identifier.clone()?,
            info_exclude: self.info_exclude,
            excludes_file: self.excludes_file,
            exclude_filename_per_dir: self.exclude_filename_per_dir.clone()?,
            dir_flags: self.dir_flags,
            directories: self.directories.clone()?,
        })
    }
}

impl UntrackedCache {
    /// Returns the identifier of the location and the machine that the cache is for.
    pub fn identifier(&self) -> &[u8]
        ensures { result.now ≡ (cache_of self.now).preamble.identifier }
    {
        self.identifier.as_bytes()
    }

    /// Returns the stat and the id of the repository's `info/exclude`, or `None` if its id is null.
    pub fn info_exclude(&self) -> Option<&OidStat>
        ensures { option_map (λ x. x.now) result ≡ (cache_of self.now).preamble.info_exclude }
    {
        self.info_exclude.as_ref()
    }

    /// Returns the stat and the id of the file that `core.excludesFile` names, or `None` if its id is null.
    pub fn excludes_file(&self) -> Option<&OidStat>
        ensures { option_map (λ x. x.now) result ≡ (cache_of self.now).preamble.excludes_file }
    {
        self.excludes_file.as_ref()
    }

    /// Returns the name of the file of exclude patterns that a directory may have, usually `.gitignore`.
    pub fn exclude_filename_per_dir(&self) -> &[u8]
        ensures { result.now ≡ (cache_of self.now).preamble.exclude_filename }
    {
        self.exclude_filename_per_dir.as_bytes()
    }

    /// Returns the flags with which the directories were read.
    pub fn dir_flags(&self) -> u32
        ensures { result ≡ (cache_of self.now).preamble.dir_flags }
    {
        self.dir_flags
    }

    /// Returns the directories in preorder, the root first. There may be none.
    pub fn directories(&self) -> &[Directory]
        ensures { map directory_value result.now ≡ (cache_of self.now).directories }
    {
        &self.directories
    }
}

/// Returns the directories that `count` blocks encode, with the values in the bytes after the blocks.
fn directories_of(
    alloc: Global,
    kind: Kind,
    limit: Option<usize>,
    count: usize,
    bytes: &[u8],
) -> Result<Option<Vec<Directory>>, AllocError>
    ensures read { IfOk result
        (λ found. IsRead (AreDirectories kind limit count) bytes.now
        (option_map (λ v. map directory_value v.items) found)) }
    ensures memory { IfErr result (λ _. HasFirstHead limit count bytes.now) }
{
    let mut directories = Vec::new(alloc);
    if count == 0 {
        if bytes.is_empty() {
            return Ok(Some(directories));
        }
        return Ok(None);
    }
    let Some(rest) = read_block(alloc, limit, MAX_LEVELS, bytes, &mut directories)? else {
        return Ok(None);
    };
    if directories.len() != count {
        return Ok(None);
    }
    if !read_bitmaps(alloc, kind, rest, &mut directories)? {
        return Ok(None);
    }
    Ok(Some(directories))
}

/// Decodes an untracked cache from the content of its extension, with ids of the hash algorithm `object_hash`
/// (gitformat-index, "Untracked cache").
///
/// It returns `None` in these cases:
///
/// - The bytes encode no cache, or don't end in a 0.
/// - A directory is more than 2048 levels below the root.
/// - The directories exceed the limit `alloc_limit_bytes`, at 152 bytes each.
/// - In one directory, the untracked names exceed the limit at 24 bytes each, or the subdirectories at 8 bytes each.
///
/// Memory is allocated only for what the bytes contain, and not for a declared number. It is allocated only after the
/// head of the first block, if there is one, was read. An error means that it couldn't be allocated.
pub fn decode(
    alloc: Global,
    data: &[u8],
    object_hash: Kind,
    alloc_limit_bytes: Option<usize>,
) -> Result<Option<UntrackedCache>, AllocError>
    ensures read { IfOk result
        (λ found. IsRead (IsCache object_hash alloc_limit_bytes) «data».now
        (option_map cache_of found)) }
    ensures memory { IfErr result (λ _. HasStart object_hash alloc_limit_bytes «data».now) }
{
    if !ends_with_nul(data) {
        return Ok(None);
    }
    let Some((preamble, rest)) = preamble_of(object_hash, data) else {
        return Ok(None);
    };
    let Some((count, rest)) = directory_count_of(alloc_limit_bytes, rest) else {
        return Ok(None);
    };
    let Some(directories) = directories_of(alloc, object_hash, alloc_limit_bytes, count, rest)?
    else {
        return Ok(None);
    };
    Ok(Some(UntrackedCache {
        identifier: BString::from_slice(alloc, preamble.identifier)?,
        info_exclude: preamble.info_exclude,
        excludes_file: preamble.excludes_file,
        exclude_filename_per_dir: BString::from_slice(alloc, preamble.exclude_filename)?,
        dir_flags: preamble.dir_flags,
        directories,
    }))
}
