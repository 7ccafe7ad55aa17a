//! The file that a command writes: its lock, and the index that replaces it.

ghost use Rattle.std.specs.Prelude.{◌≡◌};
ghost use Rattle.tool_errors.specs.Calls.{CommitsIndex, LocksTarget};
ghost use Rattle.tool_errors.specs.Options.{kept_options, options_as_read};

use crate::failure::Failure;
use gix_index::file::folder::Folder;
use gix_index::file::lock::{Durable, Fault, Lock, acquire};
use gix_index::write::{Extensions, Options, VersionChoice};
use gix_index::{File, Version};
use std::alloc::Global;
use std::path::PathBuf;

/// Locks the file that a command writes. This is to be called before the file that the command reads is opened, so that
/// nothing that git writes in the meantime is lost.
///
/// # Errors
///
/// [`Failure::Lock`] names the file that can't be locked, or reports that an allocation failed.
pub fn lock_at<'a, D: Folder>(
    folder: &mut D,
    alloc: Global,
    to: &'a str,
) -> Result<Lock<D::Made>, Failure<'a>>
    ensures { LocksTarget D.Folder D.Made.contents folder.old folder.new to.now result }
{
    let Ok(path) = PathBuf::from_str(alloc, to) else {
        let fault = Fault::Memory;
        return Err(Failure::Lock { path: to, fault });
    };
    match acquire(folder, alloc, path) {
        Ok(lock) => Ok(lock),
        Err(fault) => Err(Failure::Lock { path: to, fault }),
    }
}

/// Returns the options that preserve all extensions that fit, with the checksum at the end, in the chosen version.
pub fn kept_options(version: VersionChoice) -> Options
    ensures { result ≡ kept_options version }
{
    Options {
        extensions: Extensions::Kept,
        version,
        skip_hash: false,
    }
}

/// Returns [`kept_options`] for an index that was read in this version. The chosen version is 4 if it was 4, and
/// otherwise the smaller of 2 and 3.
pub fn kept_options_as_read(version: Version) -> Options
    ensures { result ≡ options_as_read version }
{
    match version {
        Version::V4 => kept_options(VersionChoice::V4),
        _ => kept_options(VersionChoice::Smallest),
    }
}

/// Replaces the file that was locked with an index, written by these options. The file gets the index's timestamp, or
/// the time of its writing if the index has none. All bytes are on the disk before the file is replaced.
///
/// # Errors
///
/// [`Failure::Rewrite`] names the file, which is as it was.
pub fn commit_at<'a, D: Folder>(
    folder: &mut D,
    alloc: Global,
    mut index: File,
    lock: Lock<D::Made>,
    options: Options,
    to: &'a str,
) -> Result<(), Failure<'a>>
    ensures { CommitsIndex D.Folder D.Made.contents folder.old folder.new lock index options
        to.now result }
{
    match index.commit(folder, alloc, lock, options, Durable::Yes) {
        Ok(()) => Ok(()),
        Err(fault) => Err(Failure::Rewrite { path: to, fault }),
    }
}
