//! The files of the system, and the standard input as one of them.

ghost use Rattle.std.specs.Prelude.{false, None, ⊤};
ghost use Rattle.gix_index.specs.Disk.World.{Unknown};
ghost use Rattle.gix_index.specs.OnDisk.Folders.{LeavesFolder};

use gix_index::entry::FileTime;
use gix_index::file::System;
use gix_index::file::folder::{Folder, Source, Standing, Status};
use std::alloc::Global;
use std::io;
use std::io::{Read, Stdin};
use std::path::{Path, PathBuf};
use std::rc::Rc;
use std::rt::Files;

/// The path at which the standard input is a file.
pub const STANDARD_INPUT: &str = "/dev/stdin";

/// A folder that can hold the standard input in memory, so that it can be opened more than once.
pub trait Console: Folder {
    /// Reads all bytes of the standard input. From here on they are the bytes of the file at [`STANDARD_INPUT`], each
    /// time that it is opened.
    fn hold_input(&mut self, alloc: Global) -> io::Result<()>
        ensures { LeavesFolder Self.Folder self.old self.new };
}

/// All bytes of the standard input, and its modification time.
#[derive(Drop)]
struct Held {
    bytes: Vec<u8>,
    modified: FileTime,
}

/// The standard input as it was held in memory, open for reading.
#[derive(Drop)]
pub struct HeldFile {
    held: Rc<Held>,
    at: usize,
}

/// An open file of the system, or the standard input as it was held in memory.
#[derive(Drop)]
pub enum TerminalFile<F: Source> {
    /// A file of the system.
    System(F),
    /// The standard input.
    Held(HeldFile),
}

impl<F: Source> Source for TerminalFile<F> {
    ghost stored = { λ _. None };

    ghost remaining = { λ _. None };

    ghost works = { λ _. false };

    fn read(&mut self, room: &mut [u8]) -> io::Result<usize> {
        match self {
            TerminalFile::System(file) => file.read(room),
            TerminalFile::Held(file) => {
                let mut rest = file.held.bytes.get(file.at..).unwrap_or(&[]);
                let count = rest.read(room)?;
                file.at = file.at.saturating_add(count);
                Ok(count)
            }
        }
    }

    fn go_to(&mut self, place: u64) -> io::Result<()> {
        match self {
            TerminalFile::System(file) => file.go_to(place),
            TerminalFile::Held(file) => {
                file.at = place as usize;
                Ok(())
            }
        }
    }

    fn status(&self) -> io::Result<Status> {
        match self {
            TerminalFile::System(file) => file.status(),
            TerminalFile::Held(file) => Ok(Status {
                is_plain: true,
                len: file.held.bytes.len() as u64,
                modified: file.held.modified,
            }),
        }
    }
}

/// The files of the system, and the standard input if it is held in memory.
#[derive(Drop)]
pub struct Terminal<'a, R: Files> {
    system: System<'a, R>,
    stdin: Stdin,
    held: Option<Rc<Held>>,
}

impl<'a, R: Files> Terminal<'a, R> {
    /// Returns the files that this runtime reaches, and this standard input, of which nothing is read yet.
    pub fn new(rt: &'a R, stdin: Stdin) -> Terminal<'a, R> {
        Terminal {
            system: System { rt },
            stdin,
            held: None,
        }
    }

    /// Returns the modification time of the standard input if it is a regular file. Otherwise that time isn't known,
    /// and this returns the first second of 1970. With an index of that time git compares all files with what is
    /// staged.
    fn modified(&self) -> FileTime {
        let untold = FileTime::new(1, 0).unwrap_or(FileTime::EPOCH);
        let Ok(file) = self.system.open(Path::new(STANDARD_INPUT)) else {
            return untold;
        };
        match file.status() {
            Ok(status) if status.is_plain => status.modified,
            _ => untold,
        }
    }
}

impl<R: Files> Console for Terminal<'_, R> {
    fn hold_input(&mut self, alloc: Global) -> io::Result<()> {
        let mut bytes = Vec::new(alloc);
        self.stdin.read_to_end(&mut bytes)?;
        let modified = self.modified();
        match Rc::new(alloc, Held { bytes, modified }) {
            Ok(held) => {
                self.held = Some(held);
                Ok(())
            }
            Err(_) => Err(io::Error::from(io::ErrorKind::OutOfMemory)),
        }
    }
}

impl<'a, R: Files> Folder for Terminal<'a, R> {
    type File = TerminalFile<<System<'a, R> as Folder>::File>;

    type Made = <System<'a, R> as Folder>::Made;

    ghost known = { λ _ _. Unknown };

    ghost alone = { λ _. false };

    ghost guards = { λ _. false };

    ghost works = { λ _. false };

    ghost durable = { λ _ _. ⊤ };

    fn look(&self, path: Path<'_>) -> io::Result<Standing> {
        self.system.look(path)
    }

    fn read_link(&self, alloc: Global, path: Path<'_>) -> io::Result<PathBuf> {
        self.system.read_link(alloc, path)
    }

    fn open(&self, path: Path<'_>) -> io::Result<Self::File> {
        match &self.held {
            Some(held) if path.as_str() == STANDARD_INPUT => Ok(TerminalFile::Held(HeldFile {
                held: held.clone()?,
                at: 0,
            })),
            _ => Ok(TerminalFile::System(self.system.open(path)?)),
        }
    }

    fn make(&mut self, path: Path<'_>) -> io::Result<Self::Made> {
        self.system.make(path)
    }

    fn copy_permissions(&self, made: &mut Self::Made, path: Path<'_>) -> io::Result<()> {
        self.system.copy_permissions(made, path)
    }

    fn set_time(&self, made: &mut Self::Made, time: FileTime) -> io::Result<()> {
        self.system.set_time(made, time)
    }

    fn sync(&self, made: &mut Self::Made) -> io::Result<()> {
        self.system.sync(made)
    }

    fn put(&mut self, made: Self::Made, from: Path<'_>, to: Path<'_>) -> io::Result<()> {
        self.system.put(made, from, to)
    }

    fn remove(&mut self, path: Path<'_>) -> io::Result<()> {
        self.system.remove(path)
    }
}
