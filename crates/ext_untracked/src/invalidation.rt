//! Invalidates the parts of an untracked cache that an edit of a path makes out of date (gitformat-index, "Untracked
//! cache").

ghost use Rattle.std.specs.Prelude.{◌≡◌, map};
ghost use Rattle.std.specs.Prelude.{if◌then◌else◌};
ghost use Rattle.index_parts.specs.declared.hash.Kind.{Kind};
ghost use Rattle.ext_untracked.specs.BitmapSteps.{changed_directory};
ghost use Rattle.ext_untracked.specs.Blocks.{directory_value};
ghost use Rattle.ext_untracked.specs.Untracked.{CacheIdsAreOf, cache_of};
ghost use Rattle.ext_untracked.specs.UntrackedEdits.{invalidated_from, is_directory_named, path_invalidated, sub_named};
ghost use Rattle.ext_untracked.specs.UntrackedEdits.{tells_directories, invalidated_directory};

use super::{Directory, UntrackedCache};
use index_parts::path::slash_of;

/// The flag with which git shows a completely untracked directory as one name.
const SHOW_OTHER_DIRECTORIES: u32 = 1 << 1;

/// Returns whether a completely untracked directory is shown as one name with these flags.
fn tells_directories(flags: u32) -> bool
    ensures { result ≡ tells_directories flags }
{
    flags & SHOW_OTHER_DIRECTORIES != 0
}

/// Returns whether there is a directory of this name at the index `place`.
fn is_named(directories: &[Directory], name: &[u8], place: usize) -> bool
    ensures { result ≡ is_directory_named (map directory_value directories.now) name.now place }
{
    match directories.get(place) {
        Some(directory) => directory.name().cmp(&name).is_eq(),
        None => false,
    }
}

/// Returns the index of the first subdirectory with this name of the directory at `place`, or `None` if there is none.
fn sub_named(directories: &[Directory], name: &[u8], place: usize) -> Option<usize>
    ensures { result ≡ sub_named (map directory_value directories.now) name.now place }
{
    let directory = directories.get(place)?;
    for sub in directory.sub_directories() {
        if is_named(directories, name, *sub) {
            return Some(*sub);
        }
    }
    None
}

/// Invalidates the directory at the index `place`, if there is one.
fn unlist(directories: &mut Vec<Directory>, place: usize)
    ensures { map directory_value directories.new.items
        ≡ changed_directory invalidated_directory place (map directory_value directories.old.items) }
{
    if place < directories.len() {
        let directory = &mut directories[place];
        directory.untracked_entries.clear();
        directory.stat = None;
        directory.check_only = false;
    }
}

/// Invalidates a directory on the way to the path, if directories are shown as one name.
fn pass_by(directories: &mut Vec<Directory>, place: usize, wholes: bool)
    ensures { map directory_value directories.new.items
        ≡ (if wholes then changed_directory invalidated_directory place (map directory_value directories.old.items)
        else map directory_value directories.old.items) }
{
    if wholes {
        unlist(directories, place);
    }
}

/// Follows the path from the root to the directory that contains it, and invalidates the directories that the edit
/// affects.
fn invalidate_down(directories: &mut Vec<Directory>, path: &[u8], wholes: bool)
    ensures { map directory_value directories.new.items
        ≡ invalidated_from wholes path.now 0 (map directory_value directories.old.items) }
{
    let mut place = 0;
    let mut rest = path;
    while let Some(slash) = slash_of(rest) {
        pass_by(directories, place, wholes);
        let (name, _) = rest.split_at(slash);
        let Some(sub) = sub_named(directories, name, place) else {
            return;
        };
        place = sub;
        let (_, behind) = rest.split_at(slash + 1);
        rest = behind;
    }
    unlist(directories, place);
}

/// Invalidates a path in an untracked cache, as git does if an entry with this path is added or removed
/// (gitformat-index, "Untracked cache").
///
/// The directory that contains the path loses its stat, its untracked names, and the mark that it was only checked. The
/// flags may have directories shown as one name (git's DIR_SHOW_OTHER_DIRECTORIES, 2). Then the directories on the way
/// to it lose them too, up to one that lacks the next. Everything else is unchanged.
///
/// No directory is added: git adds one, and doesn't write it. Of several subdirectories with equal names, the first is
/// used. No memory is allocated, and names are compared only along the path.
pub fn invalidate(cache: &mut UntrackedCache, path: &[u8])
    ensures is { cache_of cache.new ≡ path_invalidated path.now (cache_of cache.old) }
    ensures ids { (kind : Kind) → CacheIdsAreOf kind (cache_of cache.old)
        → CacheIdsAreOf kind (cache_of cache.new) }
{
    let wholes = tells_directories(cache.dir_flags);
    invalidate_down(&mut cache.directories, path, wholes);
}
