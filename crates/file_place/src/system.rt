//! The files of the system, about which the contracts assume nothing.
//!
//! All system calls that open, examine, create, rename or remove a file are in this module.

ghost use Rattle.std.specs.Prelude.{⊤, false, None};
ghost use Rattle.file_place.specs.World.{Unknown};

use crate::folder::{Folder, Made, Source, Standing, Status};
use crate::time::{modified_of, system_time};
use entry_fields::entry::FileTime;
use std::alloc::Global;
use std::fs::{FileTimes, OpenFile};
use std::io::{ErrorKind, Read, Seek, SeekFrom, Write};
use std::path::{Path, PathBuf};
use std::rt::Files;
use std::{fs, io};

/// The file system of the operating system.
#[derive(Clone, Copy)]
pub struct System<'a, R: Files> {
    /// The handle for system calls.
    pub rt: &'a R,
}

/// An open file of the system.
#[derive(Drop)]
pub struct SystemFile<F: OpenFile + Read + Seek + Drop> {
    inner: F,
}

/// A newly created file of the system.
#[derive(Drop)]
pub struct SystemMade<F: OpenFile + Write + Drop> {
    inner: F,
}

impl<F: OpenFile + Read + Seek + Drop> Source for SystemFile<F> {
    ghost stored = { λ _. None };

    ghost remaining = { λ _. None };

    ghost works = { λ _. false };

    fn read(&mut self, room: &mut [u8]) -> io::Result<usize> {
        self.inner.read(room)
    }

    fn go_to(&mut self, place: u64) -> io::Result<()> {
        self.inner.seek(SeekFrom::Start(place))?;
        Ok(())
    }

    fn status(&self) -> io::Result<Status> {
        let metadata = self.inner.metadata()?;
        Ok(Status {
            is_plain: metadata.is_file(),
            len: metadata.len(),
            modified: modified_of(&metadata),
        })
    }
}

impl<F: OpenFile + Write + Drop> Write for SystemMade<F> {
    ghost contents = { λ _. None };

    fn write(&mut self, bytes: &[u8]) -> io::Result<usize> {
        self.inner.write(bytes)
    }

    fn flush(&mut self) -> io::Result<()> {
        self.inner.flush()
    }
}

impl<F: OpenFile + Write + Drop> Made for SystemMade<F> {
    ghost changed = { λ _ _. ⊤ };

    ghost synced = { λ _. ⊤ };

    fn modified(&self) -> FileTime {
        match self.inner.metadata() {
            Ok(metadata) => modified_of(&metadata),
            Err(_) => FileTime::EPOCH,
        }
    }
}

impl<R: Files> Folder for System<'_, R> {
    type File = SystemFile<R::File>;

    type Made = SystemMade<R::File>;

    ghost known = { λ _ _. Unknown };

    ghost alone = { λ _. false };

    ghost guards = { λ _. false };

    ghost works = { λ _. false };

    ghost durable = { λ _ _. ⊤ };

    fn look(&self, path: Path<'_>) -> io::Result<Standing> {
        match fs::symlink_metadata(self.rt, path) {
            Ok(metadata) if metadata.is_symlink() => Ok(Standing::Link),
            Ok(metadata) if metadata.is_file() => Ok(Standing::File),
            Ok(metadata) if metadata.is_dir() => Ok(Standing::Folder),
            Ok(_) => Ok(Standing::Special),
            Err(e) if e.kind() == ErrorKind::NotFound => Ok(Standing::Nothing),
            Err(e) => Err(e),
        }
    }

    fn read_link(&self, alloc: Global, path: Path<'_>) -> io::Result<PathBuf> {
        self.rt.read_link(alloc, path.as_str())
    }

    fn open(&self, path: Path<'_>) -> io::Result<SystemFile<R::File>> {
        let inner = fs::open(self.rt, path)?;
        Ok(SystemFile { inner })
    }

    fn make(&mut self, path: Path<'_>) -> io::Result<SystemMade<R::File>> {
        let inner = fs::File::create_new(self.rt, path)?;
        Ok(SystemMade { inner })
    }

    fn copy_permissions(&self, made: &mut SystemMade<R::File>, path: Path<'_>) -> io::Result<()> {
        match fs::metadata(self.rt, path) {
            Ok(metadata) => made.inner.set_permissions(metadata.permissions()),
            Err(e) if e.kind() == ErrorKind::NotFound => Ok(()),
            Err(e) => Err(e),
        }
    }

    fn set_time(&self, made: &mut SystemMade<R::File>, time: FileTime) -> io::Result<()> {
        let Some(modified) = system_time(time) else {
            return Err(io::Error::from(ErrorKind::InvalidInput));
        };
        made.inner
            .set_times(FileTimes::new().set_modified(modified))
    }

    fn sync(&self, made: &mut SystemMade<R::File>) -> io::Result<()> {
        made.inner.sync_all()
    }

    fn put(&mut self, made: SystemMade<R::File>, from: Path<'_>, to: Path<'_>) -> io::Result<()> {
        drop(made);
        fs::rename(self.rt, from, to)
    }

    fn remove(&mut self, path: Path<'_>) -> io::Result<()> {
        fs::remove_file(self.rt, path)
    }
}
