//! An in-memory file system.

ghost use Rattle.std.specs.Prelude.{◌≡◌, ◌≢◌, List, ℕ, OnErr, OnOk, Some, false, true};
ghost use Rattle.std.specs.Option.{option_copied};
ghost use Rattle.std.specs.Path.{path_bytes};
ghost use Rattle.file_place.specs.World.{Absent};
ghost use Rattle.file_place.specs.Shelf.{IsDurable, memory_fault, kept_at, works_with, world_of};

use crate::file::ShelfFile;
use crate::folder::{Folder, Standing};
use crate::made::ShelfMade;
use crate::steps::Steps;
use entry_fields::entry::FileTime;
use std::alloc::{AllocError, Global};
use std::collections::BTreeMap;
use std::io;
use std::io::{Cursor, ErrorKind};
use std::path::{Path, PathBuf};

/// A file as the shelf stores it.
#[derive(Drop)]
pub struct Kept {
    /// All bytes of the file.
    pub bytes: Vec<u8>,
    /// The time of the last change.
    pub time: FileTime,
    /// Whether the file was synced before it was moved to its path, and not changed in between.
    pub is_durable: bool,
}

/// An in-memory file system: regular files by path, without links and directories. A path is any text, and leads to
/// itself. Either nobody else changes the files, or others may change those that aren't locked.
///
/// Each call of [`Folder`] and of open and new files takes a step. [`Folder::read_link`] takes none and always fails,
/// because there are no links. A step that is made to fail returns an error with `ErrorKind` `TimedOut`. If memory runs
/// out for a path or for bytes, the call fails with `OutOfMemory`. After an error everything is as it was.
#[derive(Drop)]
pub struct Shelf<'a> {
    alloc: Global,
    files: BTreeMap<String, Kept>,
    /// The time at which files are created and written.
    now: FileTime,
    /// Whether nobody else changes the files.
    is_alone: bool,
    steps: Steps<'a>,
}

impl<'a> Shelf<'a> {
    /// Returns a shelf without files. Files are created and written at the time `now`.
    pub fn new(alloc: Global, now: FileTime, steps: Steps<'a>) -> Shelf<'a>
        ensures empty { (path : List ℕ) → world_of result path ≡ Absent }
        ensures alone { result.is_alone ≡ true }
        ensures fault { memory_fault result ≡ steps.entry.fault }
    {
        Shelf {
            alloc,
            files: BTreeMap::new(alloc),
            now,
            is_alone: true,
            steps,
        }
    }

    /// Returns the shelf as one on which others may change files that aren't locked, as [`Shelf::keep`] does. What is
    /// at a path is known only while its lock is there: the path with `.lock` appended.
    pub fn shared(mut self) -> Shelf<'a>
        ensures kept { kept_at result ≡ kept_at self.entry }
        ensures shared { result.is_alone ≡ false }
        ensures fault { memory_fault result ≡ memory_fault self.entry }
    {
        self.is_alone = false;
        self
    }

    /// Stores a file at `path` and replaces what is there. It takes no step. The only error is an allocation failure.
    /// After it everything is as it was.
    pub fn keep(&mut self, path: Path<'_>, kept: Kept) -> Result<(), AllocError>
        ensures here { OnOk result
            (kept_at self.new (path_bytes path.entry) ≡ Some kept) }
        ensures others { OnOk result ((p : List ℕ) → p ≢ path_bytes path.entry
            → kept_at self.new p ≡ kept_at self.old p) }
        ensures kept { OnErr result (kept_at self.new ≡ kept_at self.old) }
        ensures alone { self.new.is_alone ≡ self.old.is_alone }
        ensures fault { memory_fault self.new ≡ memory_fault self.old }
    {
        let key = String::from_str(self.alloc, path.as_str())?;
        self.files.insert(key, kept)?;
        Ok(())
    }

    /// Returns the file at `path`.
    pub fn file(&self, path: Path<'_>) -> Option<&Kept>
        ensures { option_copied result ≡ kept_at self.entry.now (path_bytes path.entry) }
    {
        self.files.get(path.as_str())
    }
}

impl<'a> Folder for Shelf<'a> {
    type File = ShelfFile<'a>;

    type Made = ShelfMade<'a>;

    ghost known = { λ shelf. world_of shelf };

    ghost alone = { λ shelf. shelf.is_alone };

    ghost guards = { λ _. true };

    ghost works = { λ shelf. works_with (memory_fault shelf) };

    ghost durable = { λ shelf path. IsDurable (kept_at shelf path) };

    fn look(&self, path: Path<'_>) -> io::Result<Standing> {
        self.steps.take()?;
        match self.files.get(path.as_str()) {
            Some(_) => Ok(Standing::File),
            None => Ok(Standing::Nothing),
        }
    }

    fn read_link(&self, _alloc: Global, _path: Path<'_>) -> io::Result<PathBuf> {
        Err(io::Error::from(ErrorKind::InvalidInput))
    }

    fn open(&self, path: Path<'_>) -> io::Result<ShelfFile<'a>> {
        self.steps.take()?;
        let Some(kept) = self.file(path) else {
            return Err(io::Error::from(ErrorKind::NotFound));
        };
        let bytes = kept.bytes.to_vec(self.alloc)?;
        Ok(ShelfFile {
            bytes: Cursor::new(bytes),
            time: kept.time,
            steps: self.steps,
        })
    }

    fn make(&mut self, path: Path<'_>) -> io::Result<ShelfMade<'a>> {
        self.steps.take()?;
        if self.files.contains_key(path.as_str()) {
            return Err(io::Error::from(ErrorKind::AlreadyExists));
        }
        let kept = Kept {
            bytes: Vec::new(self.alloc),
            time: self.now,
            is_durable: false,
        };
        self.keep(path, kept)?;
        Ok(ShelfMade {
            bytes: Vec::new(self.alloc),
            time: self.now,
            now: self.now,
            is_synced: false,
            steps: self.steps,
        })
    }

    fn copy_permissions(&self, made: &mut ShelfMade<'a>, _path: Path<'_>) -> io::Result<()> {
        self.steps.take()?;
        made.is_synced = false;
        Ok(())
    }

    fn set_time(&self, made: &mut ShelfMade<'a>, time: FileTime) -> io::Result<()> {
        self.steps.take()?;
        made.time = time;
        made.is_synced = false;
        Ok(())
    }

    fn sync(&self, made: &mut ShelfMade<'a>) -> io::Result<()> {
        self.steps.take()?;
        made.is_synced = true;
        Ok(())
    }

    fn put(&mut self, made: ShelfMade<'a>, from: Path<'_>, to: Path<'_>) -> io::Result<()> {
        self.steps.take()?;
        let ShelfMade {
            bytes,
            time,
            is_synced,
            ..
        } = made;
        let kept = Kept {
            bytes,
            time,
            is_durable: is_synced,
        };
        self.keep(to, kept)?;
        if from.as_str() != to.as_str() {
            self.files.remove(from.as_str());
        }
        Ok(())
    }

    fn remove(&mut self, path: Path<'_>) -> io::Result<()> {
        self.steps.take()?;
        self.files.remove(path.as_str());
        Ok(())
    }
}
