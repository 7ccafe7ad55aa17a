//! An index that is locked before it is read, so that no other writer changes it between reading and writing.

ghost use Rattle.std.specs.Path.{path_buf_bytes};
ghost use Rattle.std.specs.Prelude.{◌≡◌, [], IfErr, IfOk, None, OnErr, OnOk, Some, true};
ghost use Rattle.file_errors.specs.WriteFaults.{CommitIndexCause};
ghost use Rattle.file_place.specs.Locks.{IsReleased, LeadsTo, Restores, asked_of, lock_of, target_of};
ghost use Rattle.file_place.specs.World.{Makes};
ghost use Rattle.index_model.specs.Storable.{IsWritable};
ghost use Rattle.index_state.specs.State.{contents};
ghost use Rattle.gix_index.specs.File.{state_of};
ghost use Rattle.gix_index.specs.FileFaults.{LockReadCause};
ghost use Rattle.gix_index.specs.InPlace.{IsPutSince};
ghost use Rattle.gix_index.specs.OnDisk.{IsLockedWhole, IsReadLocked, allows_empty, is_durable};
ghost use Rattle.gix_index.specs.WrittenFile.{IsWrittenTo};

use super::File;
use super::at::read_from;
use super::write::{self, commit_bytes};
pub use file_errors::lock::Error;
use file_place::folder::{Folder, Made};
use file_place::lock;
pub use file_place::lock::{Error as Fault, Lock, Place, acquire};
use file_windows::ReadOptions;
use index_model::write::Options;
use std::alloc::{AllocError, Global};
use std::path::PathBuf;

/// What a call does if there is no file at the path of an index.
#[derive(Debug, Clone, Copy)]
pub enum IfMissing {
    /// Returns the error of opening the file.
    Fail,
    /// Returns an index without entries.
    Empty,
}

impl IfMissing {
    /// Returns whether a missing file is read as an index without entries.
    fn allows_empty(self) -> bool
        ensures { result ≡ allows_empty self }
    {
        matches!(self, IfMissing::Empty)
    }
}

/// Whether all bytes have to be on the disk before a file replaces another.
#[derive(Debug, Clone, Copy)]
pub enum Durable {
    /// They are written to the disk first, so that a loss of power leaves the old file or the new one.
    Yes,
    /// The system writes them when it wants to.
    No,
}

impl Durable {
    /// Returns whether the bytes have to be on the disk.
    fn is_durable(self) -> bool
        ensures { result ≡ is_durable self }
    {
        matches!(self, Durable::Yes)
    }
}

/// An index that is locked. Until it is committed or released, git doesn't write another index to its path. The same
/// holds for every writer that locks as git does.
///
/// If it is only dropped, its lock file remains and has to be removed by hand.
#[derive(Drop)]
pub struct Locked<M: Made> {
    /// The index as it was read under the lock.
    pub file: File,
    lock: Lock<M>,
}

impl File {
    /// Locks the index at a path, and then reads it as [`File::open`] does. So a commit replaces exactly the index that
    /// was read, and nothing that git writes meanwhile is lost.
    ///
    /// If there is no file at the path, [`IfMissing::Empty`] returns an index without entries, with the time at which
    /// the lock was made. The timestamp of `reading` isn't used.
    ///
    /// # Errors
    ///
    /// - [`Error::Lock`]: the index isn't locked. Another process has the lock, or an index can't be written to that
    ///   path.
    /// - [`Error::Read`]: an error of [`File::open`]. Removing the lock was tried.
    pub fn lock<D: Folder>(
        folder: &mut D,
        alloc: Global,
        path: PathBuf,
        reading: ReadOptions,
        if_missing: IfMissing,
    ) -> Result<Locked<D::Made>, Error>
        ensures read { IfOk result
            (IsReadLocked (D.known folder.new) path reading if_missing D.Made.changed) }
        ensures whole { IfOk result (IsLockedWhole (path_buf_bytes path) reading.object_hash) }
        ensures asked { IfOk result (λ x. asked_of x.lock.place ≡ path_buf_bytes path) }
        ensures target { IfOk result
            (λ x. LeadsTo (D.known folder.old) 5 (path_buf_bytes path) (target_of x.lock.place)) }
        ensures made { IfOk result (λ x. Makes (D.guards folder.old) (D.known folder.old)
            (D.known folder.new) (lock_of x.lock.place)) }
        ensures empty { IfOk result
            (λ x. D.alone folder.old ≡ true → D.Made.contents x.lock.file ≡ Some []) }
        ensures restored { OnErr result (D.alone folder.old ≡ true
            → Restores (D.works folder.old) (D.known folder.old) (D.known folder.new)
            (path_buf_bytes path)) }
        ensures alone { D.alone folder.new ≡ D.alone folder.old }
        ensures works { D.works folder.new ≡ D.works folder.old }
        ensures fault { IfErr result
            (LockReadCause (path_buf_bytes path) (D.works folder.old) (D.guards folder.old)
            (D.known folder.old) reading.skip_hash reading.object_hash reading.options) }
    {
        let asked = match path.clone() {
            Ok(asked) => asked,
            Err(AllocError) => return Err(Error::Lock(lock::Error::Memory)),
        };
        let Lock { place, file: made } = lock::acquire(folder, alloc, asked)?;
        let reading = ReadOptions {
            timestamp: made.modified(),
            ..reading
        };
        match read_from(
            folder,
            alloc,
            place.target(),
            path,
            reading,
            if_missing.allows_empty(),
            true,
        ) {
            Ok(file) => Ok(Locked {
                file,
                lock: Lock { place, file: made },
            }),
            Err(e) => {
                drop(made);
                place.release(folder);
                Err(Error::Read(e))
            }
        }
    }

    /// Replaces the file that was locked with this index. The path of this `File` becomes the path that was given to
    /// the lock.
    ///
    /// What [`File::write_to`] writes goes to the lock file through a buffer of 64 KiB. The new file gets the
    /// permissions of the file that it replaces. Its modification time is set to
    /// [`State::timestamp`](index_state::State::timestamp), if that time can be set. git trusts the stat data of an
    /// entry only if the file of the work tree is older than the index. So git still reads every file that it would
    /// have read before. With [`Durable::Yes`] all bytes are on the disk before the file is replaced.
    ///
    /// Version and checksum become those that were written; the checksum becomes `None` with `skip_hash`. Everything
    /// else is unchanged.
    ///
    /// The errors are those of [`File::write`] except [`write::Error::AcquireLock`]. After an error this `File` and the
    /// file that was locked are unchanged, and removing the lock was tried.
    pub fn commit<D: Folder>(
        &mut self,
        folder: &mut D,
        alloc: Global,
        lock: Lock<D::Made>,
        options: Options,
        durable: Durable,
    ) -> Result<(), write::Error>
        ensures ok { OnOk result (IsWrittenTo (asked_of lock.place) self.old self.new options) }
        ensures err { OnErr result (self.new ≡ self.old) }
        ensures writable { OnOk result (IsWritable (contents (state_of self.old)) options) }
        ensures put { OnOk result (D.alone folder.old ≡ true → D.Made.contents lock.file ≡ Some []
            → IsPutSince (D.known folder.old) (D.known folder.new) lock.place
            (contents (state_of self.old)) options) }
        ensures synced { OnOk result
            (is_durable durable ≡ true → D.durable folder.new (target_of lock.place)) }
        ensures released { OnErr result (D.alone folder.old ≡ true
            → IsReleased (D.works folder.old) (D.known folder.old) (D.known folder.new)
            (lock_of lock.place)) }
        ensures fault { IfErr result (CommitIndexCause (D.works folder.old) lock.place
            (contents (state_of self.old)) options) }
        ensures alone { D.alone folder.new ≡ D.alone folder.old }
        ensures works { D.works folder.new ≡ D.works folder.old }
    {
        let (path, version, id) = commit_bytes(
            self,
            folder,
            alloc,
            lock,
            options,
            durable.is_durable(),
        )?;
        self.path = path;
        self.state.set_version(version);
        self.checksum = if options.skip_hash { None } else { Some(id) };
        Ok(())
    }
}

impl<M: Made> Locked<M> {
    /// Returns the index and its lock.
    pub fn into_parts(self) -> (File, Lock<M>)
        ensures file { result.0 ≡ self.file }
        ensures lock { result.1 ≡ self.lock }
    {
        let Locked { file, lock } = self;
        (file, lock)
    }

    /// Replaces the file that was locked with the current index, by [`File::commit`]. Returns the index as it was
    /// written.
    ///
    /// The errors are those of [`File::commit`]. After an error the file that was locked is unchanged, and removing the
    /// lock was tried.
    pub fn commit<D: Folder<Made = M>>(
        self,
        folder: &mut D,
        alloc: Global,
        options: Options,
        durable: Durable,
    ) -> Result<File, write::Error>
        ensures ok { IfOk result
            (λ f. IsWrittenTo (asked_of self.lock.place) self.file f options) }
        ensures writable { OnOk result (IsWritable (contents (state_of self.file)) options) }
        ensures put { OnOk result (D.alone folder.old ≡ true → M.contents self.lock.file ≡ Some []
            → IsPutSince (D.known folder.old) (D.known folder.new) self.lock.place
            (contents (state_of self.file)) options) }
        ensures synced { OnOk result
            (is_durable durable ≡ true → D.durable folder.new (target_of self.lock.place)) }
        ensures released { OnErr result (D.alone folder.old ≡ true
            → IsReleased (D.works folder.old) (D.known folder.old) (D.known folder.new)
            (lock_of self.lock.place)) }
        ensures fault { IfErr result (CommitIndexCause (D.works folder.old) self.lock.place
            (contents (state_of self.file)) options) }
    {
        let Locked { mut file, lock } = self;
        match file.commit(folder, alloc, lock, options, durable) {
            Ok(()) => Ok(file),
            Err(e) => Err(e),
        }
    }

    /// Releases the lock, and returns the index as it is in memory. Removing the lock file is tried.
    pub fn release<D: Folder<Made = M>>(self, folder: &mut D) -> File
        ensures file { result ≡ self.file }
        ensures released { D.alone folder.old ≡ true
            → IsReleased (D.works folder.old) (D.known folder.old) (D.known folder.new)
            (lock_of self.lock.place) }
    {
        let (file, lock) = self.into_parts();
        lock.release(folder);
        file
    }
}
