//! The lock under which a file is replaced: a new file next to it. It is renamed to the file, or it is removed.

ghost use Rattle.std.specs.Prelude.{◌≡◌, ◌++◌, codes, false, true, IfOk, IsOk, OnOk};
ghost use Rattle.std.specs.Path.{path_buf_bytes, path_bytes};
ghost use Rattle.entry_fields.specs.declared.entry.stat.FileTime.{FileTime as Time};
ghost use Rattle.file_place.specs.Folders.{Acquires, Commits, Releases};
ghost use Rattle.file_place.specs.Locks.{LockStepCause, asked_of, lock_of, target_of};
ghost use Rattle.file_place.specs.Times.{is_known_time};

use crate::fault::{OneLine, PathError};
use crate::folder::{Folder, Made};
pub use crate::locked::Place;
use crate::targets::target_of;
use crate::time::is_known_time;
use entry_fields::entry::FileTime;
use std::alloc::{AllocError, Global};
use std::io;
use std::io::ErrorKind;
use std::path::{Path, PathBuf};
use thiserror::Error;

/// Why a file can't be locked.
#[derive(Debug, Drop, Error)]
pub enum Error {
    /// A system call failed for this file.
    #[error("the index can't be locked: {0}")]
    Io(PathError),
    /// This lock file already exists. Another process writes the index, or ended while it did.
    #[error("the index is locked, as {} is there: another process writes the index, or ended while it did; if none does, \
         remove that file", OneLine(.0.as_path().as_str()))]
    Held(PathBuf),
    /// A directory is at this path, and a file is needed.
    #[error("the index can't be locked: {}: it is a folder", OneLine(.0.as_path().as_str()))]
    IsFolder(PathBuf),
    /// A device, a pipe or a socket is at this path, and a file is needed.
    #[error("the index can't be locked: {}: it is no regular file", OneLine(.0.as_path().as_str()))]
    IsSpecial(PathBuf),
    /// This path is a symbolic link to a file that doesn't exist.
    #[error("the index can't be locked: {}: the symbolic link leads nowhere", OneLine(.0.as_path().as_str()))]
    LeadsNowhere(PathBuf),
    /// More than five symbolic links, one after another, lead on from this path.
    #[error("the index can't be locked: {}: more than five symbolic links, one after another, lead on from there", OneLine(.0.as_path().as_str()))]
    TooManyLinks(PathBuf),
    /// An allocation failed.
    #[error("out of memory while locking an index")]
    Memory,
}

impl Error {
    /// Returns the error for a system call that failed for the file at `path`.
    pub(crate) fn of(path: PathBuf, error: io::Error) -> Error
        ensures fault { LockStepCause (path_buf_bytes path) error result }
    {
        match PathError::of(path, error) {
            Some(fault) => Error::Io(fault),
            None => Error::Memory,
        }
    }
}

impl From<AllocError> for Error {
    ghost use Rattle.file_place.specs.declared.lock.Error.TheVariants.{Memory};

    ghost from_gives = { λ _e error. error ≡ Memory };

    fn from(_e: AllocError) -> Error {
        Error::Memory
    }
}

/// Why the locked file can't be replaced.
#[derive(Debug, Drop)]
pub enum CommitError {
    /// The lock file at this path can't be given the permissions or the time, or can't be written to the disk.
    Lock(PathError),
    /// The lock file can't be renamed to this path.
    Rename(PathError),
}

/// A lock that was created.
#[derive(Drop)]
pub struct Lock<M: Made> {
    /// The paths of the lock.
    pub place: Place,
    /// The open lock file. The new content of the locked file is written to it.
    pub file: M,
}

impl<M: Made> Lock<M> {
    /// Closes the lock file and releases the lock, as [`Place::release`] does. Returns the path of the lock file.
    pub fn release<D: Folder<Made = M>>(self, folder: &mut D) -> PathBuf
        ensures { Releases D.Folder folder.old folder.new (lock_of self.place) result }
    {
        let Lock { place, file } = self;
        drop(file);
        place.release(folder)
    }
}

/// Returns `path` with `.lock` appended.
pub fn lock_path(alloc: Global, path: &PathBuf) -> Result<PathBuf, AllocError>
    ensures { IfOk result (λ lock. path_buf_bytes lock ≡ path_buf_bytes path.now ++ codes ".lock") }
{
    let mut lock = String::from_str(alloc, path.as_path().as_str())?;
    lock.push_str(".lock")?;
    PathBuf::from_str(alloc, lock.as_str())
}

impl Place {
    /// Returns the path that the caller asked to lock.
    pub fn asked(&self) -> Path<'_>
        ensures { path_bytes result ≡ asked_of self.now }
    {
        self.asked.as_path()
    }

    /// Returns the path of the locked file.
    pub fn target(&self) -> Path<'_>
        ensures { path_bytes result ≡ target_of self.now }
    {
        self.target.as_path()
    }

    /// Returns the path of the lock file.
    pub fn path(&self) -> Path<'_>
        ensures { path_bytes result ≡ lock_of self.now }
    {
        self.path.as_path()
    }

    /// Prepares the lock file to replace the locked file. It gets the permissions of that file, if there is one. It
    /// gets the time, if git takes that for known. If `is_synced`, all of it is written to the disk.
    fn finish<D: Folder>(
        &self,
        folder: &D,
        file: &mut D::Made,
        time: FileTime,
        is_synced: bool,
    ) -> io::Result<()>
        ensures contents { D.Made.contents file.new ≡ D.Made.contents file.old }
        ensures given { OnOk result (is_known_time time ≡ true → D.Made.changed file.new time) }
        ensures untold { is_known_time time ≡ false
            → (t : Time) → D.Made.changed file.new t → D.Made.changed file.old t }
        ensures synced { OnOk result (is_synced ≡ true → D.Made.synced file.new) }
        ensures succeeds { D.works folder.now ≡ true → IsOk result }
    {
        folder.copy_permissions(file, self.target.as_path())?;
        if is_known_time(time) {
            folder.set_time(file, time)?;
        }
        if is_synced {
            folder.sync(file)?;
        }
        Ok(())
    }

    /// Replaces the locked file with the lock file, which gets the permissions of the locked file. Returns the path
    /// that the caller asked to lock.
    ///
    /// The time of the last change becomes `time`. It isn't set if it is before 1970, or if its seconds are 0 in 32
    /// bits: git takes that for an unknown time. With `is_synced`, all bytes are on the disk before the file is
    /// replaced.
    ///
    /// # Errors
    ///
    /// See [`CommitError`]. The locked file isn't changed, and the call tries to remove the lock file.
    pub fn commit<D: Folder>(
        self,
        folder: &mut D,
        mut file: D::Made,
        time: FileTime,
        is_synced: bool,
    ) -> Result<PathBuf, CommitError>
        ensures { Commits D.Folder folder.old folder.new self (D.Made.contents file) time is_synced
            result }
    {
        if let Err(error) = self.finish(folder, &mut file, time, is_synced) {
            drop(file);
            let path = self.release(folder);
            return Err(CommitError::Lock(PathError { path, error }));
        }
        let Place {
            asked,
            target,
            path,
        } = self;
        match folder.put(file, path.as_path(), target.as_path()) {
            Ok(()) => Ok(asked),
            Err(error) => {
                let _ = folder.remove(path.as_path());
                Err(CommitError::Rename(PathError {
                    path: target,
                    error,
                }))
            }
        }
    }

    /// Releases the lock, whose file is closed: tries to remove the lock file. The locked file isn't changed. Returns
    /// the path of the lock file.
    pub fn release<D: Folder>(self, folder: &mut D) -> PathBuf
        ensures { Releases D.Folder folder.old folder.new (lock_of self) result }
    {
        let _ = folder.remove(self.path.as_path());
        self.path
    }
}

/// Locks the file that `path` leads to, as git locks an index: creates the new file `<file>.lock`. At most five
/// symbolic links are followed. If nothing is at the path, the lock is for a file that will be created there.
///
/// # Errors
///
/// - [`Error::Held`]: the lock file already exists.
/// - [`Error::IsFolder`], [`Error::IsSpecial`]: what is at the path isn't a regular file and can't be replaced.
/// - [`Error::LeadsNowhere`]: the path is a symbolic link to a file that doesn't exist.
/// - [`Error::TooManyLinks`]: more than five symbolic links lead on from the path.
/// - [`Error::Io`]: a system call failed. The error names the file. An empty path is such an error.
/// - [`Error::Memory`]: an allocation failed.
///
/// After an error everything is as it was before.
pub fn acquire<D: Folder>(
    folder: &mut D,
    alloc: Global,
    path: PathBuf,
) -> Result<Lock<D::Made>, Error>
    ensures { Acquires D.Folder D.Made.contents folder.old folder.new (path_buf_bytes path) result }
{
    if path.as_path().as_str().is_empty() {
        return Err(Error::of(path, io::Error::from(ErrorKind::NotFound)));
    }
    let asked = path.clone()?;
    let target = target_of(folder, alloc, path)?;
    let path = lock_path(alloc, &target)?;
    match folder.make(path.as_path()) {
        Ok(file) => Ok(Lock {
            place: Place {
                asked,
                target,
                path,
            },
            file,
        }),
        Err(e) if e.kind() == ErrorKind::AlreadyExists => Err(Error::Held(path)),
        Err(e) => Err(Error::of(path, e)),
    }
}
