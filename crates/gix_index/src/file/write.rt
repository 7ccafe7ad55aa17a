//! Writes a `File` to its path by means of a lock file.

ghost use Rattle.std.specs.Prelude.{◌≡◌, ◌++◌, Some, codes, false, true, IfErr, IfOk, OnErr, OnOk};
ghost use Rattle.file_errors.specs.WriteFaults.{WriteCause, WriteErrorCause};
ghost use Rattle.index_model.specs.Storable.{IsWritable};
ghost use Rattle.index_state.specs.State.{contents};
ghost use Rattle.gix_index.specs.File.{path_of, state_of};
ghost use Rattle.gix_index.specs.InPlace.{IsPut, LeavesLock};
ghost use Rattle.gix_index.specs.OnSystem.{system_world};
ghost use Rattle.gix_index.specs.WrittenFile.{IsWritten};
ghost use Rattle.gix_index.specs.WrittenFile.{written_id, written_version};
ghost use Rattle.gix_index.specs.WrittenFile.{HoldsImage, Saves};

use super::File;
use entry_list::Version;
pub use file_errors::write::Error;
use file_errors::write::{Step, fault_of, put_fault};
use file_place::fault::PathError;
use file_place::folder::Folder;
use file_place::lock::{CommitError, Lock, lock_path};
use file_place::system::System;
use index_model::write;
use index_model::write::Options;
use index_parts::hash::ObjectId;
use index_parts::hash::io::{Plain, Retrying};
use std::alloc::Global;
use std::io;
use std::io::BufWriter;
use std::path::PathBuf;
use std::rt::Files;

/// The size in bytes of the write buffer.
const BUFFER_LEN: usize = 65536;

/// Writes all bytes of an index to a lock file, and replaces the file that was locked with it.
///
/// Returns the path that was given to the lock, and the version and the id that were written. After an error removing
/// the lock was tried.
pub(super) fn commit_bytes<D: Folder>(
    index: &File,
    folder: &mut D,
    alloc: Global,
    lock: Lock<D::Made>,
    options: Options,
    is_synced: bool,
) -> Result<(PathBuf, Version, ObjectId), Error>
    ensures { Saves D.Folder D.Made.contents folder.old folder.new index.now lock options is_synced
        result }
{
    let Lock { place, file } = lock;
    let Filled { version, id, file } = match index.fill(alloc, file, options) {
        Ok(filled) => filled,
        Err(e) => return Err(put_fault(place.release(folder), e)),
    };
    match place.commit(folder, file, index.state.timestamp(), is_synced) {
        Ok(path) => Ok((path, version, id)),
        Err(CommitError::Lock(PathError { path, error })) => Err(fault_of(Step::Put, path, error)),
        Err(CommitError::Rename(PathError { path, error })) => {
            Err(fault_of(Step::Commit, path, error))
        }
    }
}

/// A writer to which all bytes were written, with their version and the id at their end.
#[derive(Drop)]
struct Filled<W> {
    version: Version,
    id: ObjectId,
    file: W,
}

impl File {
    /// Writes all bytes to a writer through a buffer.
    fn fill<W: io::Write + Drop>(
        &self,
        alloc: Global,
        file: W,
        options: Options,
    ) -> Result<Filled<W>, write::Error>
        ensures version { IfOk result (λ x. x.version ≡ written_version self.now options) }
        ensures id { IfOk result (λ x. x.id ≡ written_id self.now options) }
        ensures bytes { IfOk result
            (HoldsImage W.contents file self.now options) }
        ensures writable { OnOk result (IsWritable (contents (state_of self.now)) options) }
        ensures fault { IfErr result (WriteErrorCause (contents (state_of self.now)) options) }
    {
        let buffer = BufWriter::with_capacity(alloc, BUFFER_LEN, Retrying { inner: file })?;
        let mut out = Plain::new(buffer);
        let (version, id) = self.write_to(&mut out, options)?;
        match out.inner.into_inner() {
            Ok(Retrying { inner: file }) => Ok(Filled { version, id, file }),
            Err(e) => Err(write::Error::Io(e.into_error())),
        }
    }

    /// Writes all bytes to a new lock file, and renames it to the path of the index. After an error its removal was
    /// tried, unless the lock file existed before.
    fn replace<D: Folder>(
        &self,
        folder: &mut D,
        alloc: Global,
        options: Options,
    ) -> Result<(Version, ObjectId), Error>
        ensures version { IfOk result (λ x. x.0 ≡ written_version self.now options) }
        ensures id { IfOk result (λ x. x.1 ≡ written_id self.now options) }
        ensures writable { OnOk result (IsWritable (contents (state_of self.now)) options) }
        ensures put { OnOk result (D.alone folder.old ≡ true
            → IsPut (D.known folder.old) (D.known folder.new) (path_of self.now ++ codes ".lock")
            (path_of self.now) (contents (state_of self.now)) options) }
        ensures left { OnErr result (D.alone folder.old ≡ true → LeavesLock (D.works folder.old)
            (D.known folder.old) (D.known folder.new) (path_of self.now ++ codes ".lock")) }
        ensures fault { IfErr result
            (WriteCause (D.works folder.old) (D.known folder.old) (path_of self.now)
            (contents (state_of self.now)) options) }
    {
        let lock = lock_path(alloc, &self.path)?;
        let path = self.path.clone()?;
        let file = match folder.make(lock.as_path()) {
            Ok(file) => file,
            Err(e) => return Err(fault_of(Step::Lock, lock, e)),
        };
        let Filled { version, id, file } = match self.fill(alloc, file, options) {
            Ok(filled) => filled,
            Err(e) => {
                let _ = folder.remove(lock.as_path());
                return Err(put_fault(lock, e));
            }
        };
        match folder.put(file, lock.as_path(), self.path.as_path()) {
            Ok(()) => Ok((version, id)),
            Err(e) => {
                let _ = folder.remove(lock.as_path());
                Err(fault_of(Step::Commit, path, e))
            }
        }
    }

    /// Writes the index to its path by means of the lock file `<path>.lock`. The files are the system's.
    ///
    /// The lock excludes other writers only while the index is written, not since it was read. To lose no change that
    /// git makes concurrently, use [`File::lock`].
    ///
    /// The lock file is created; if it already exists, nothing is written. What [`File::write_to`] writes goes to it
    /// through a buffer of 64 KiB, and then it is renamed to the path. Nothing is synced to the disk. Version and
    /// checksum become those that were written; the checksum becomes `None` with `skip_hash`. Everything else is
    /// unchanged.
    ///
    /// # Errors
    ///
    /// - [`Error::AcquireLock`], [`Error::Io`] and [`Error::CommitLock`]: the step that the variant names failed.
    /// - [`Error::TooManyEntries`], [`Error::NulInPath`] and [`Error::TooLarge`]: those of [`File::write_to`].
    ///
    /// After an error this `File` is unchanged. Removing the lock file was tried, unless it belongs to another writer.
    pub fn write<R: Files>(&mut self, rt: &R, alloc: Global, options: Options) -> Result<(), Error>
        ensures ok { OnOk result (IsWritten self.old self.new options) }
        ensures err { OnErr result (self.new ≡ self.old) }
        ensures writable { OnOk result (IsWritable (contents (state_of self.old)) options) }
        ensures fault { IfErr result (WriteCause false system_world (path_of self.old)
            (contents (state_of self.old)) options) }
    {
        let mut folder = System { rt };
        self.write_in(&mut folder, alloc, options)
    }

    /// Writes the index as [`File::write`] does, to a path in a [`Folder`].
    pub fn write_in<D: Folder>(
        &mut self,
        folder: &mut D,
        alloc: Global,
        options: Options,
    ) -> Result<(), Error>
        ensures ok { OnOk result (IsWritten self.old self.new options) }
        ensures err { OnErr result (self.new ≡ self.old) }
        ensures writable { OnOk result (IsWritable (contents (state_of self.old)) options) }
        ensures put { OnOk result (D.alone folder.old ≡ true
            → IsPut (D.known folder.old) (D.known folder.new) (path_of self.old ++ codes ".lock")
            (path_of self.old) (contents (state_of self.old)) options) }
        ensures left { OnErr result (D.alone folder.old ≡ true → LeavesLock (D.works folder.old)
            (D.known folder.old) (D.known folder.new) (path_of self.old ++ codes ".lock")) }
        ensures fault { IfErr result
            (WriteCause (D.works folder.old) (D.known folder.old) (path_of self.old)
            (contents (state_of self.old)) options) }
    {
        let (version, id) = self.replace(folder, alloc, options)?;
        self.state.set_version(version);
        self.checksum = if options.skip_hash { None } else { Some(id) };
        Ok(())
    }
}
