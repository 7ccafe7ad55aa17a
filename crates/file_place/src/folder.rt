//! Traits of a file system: its paths, its open files and its new files.

ghost use Rattle.std.specs.Prelude.{◌≡◌, ℕ, List, Bool, Option, true, IfErr, IfOk, OnErr, OnOk};
ghost use Rattle.std.specs.IoError.{error_kind};
ghost use Rattle.std.specs.Path.{path_bytes};
ghost use Rattle.entry_fields.specs.declared.entry.stat.FileTime.{FileTime as Time};
ghost use Rattle.file_place.specs.Calls.{FailsAs, GivesTime, GoesTo, KeepsMade, MakesFile, MayLack, OpensAs};
ghost use Rattle.file_place.specs.Calls.{ReadsSome, RemovesFile, Sees, ReadsLink, ReadsStatus};
ghost use Rattle.file_place.specs.World.{Moves, Stored, World, whole_of};

use entry_fields::entry::FileTime;
use std::alloc::Global;
use std::io;
use std::io::ErrorKind;
use std::path::{Path, PathBuf};

/// The type of what is at a path. No link is followed.
#[derive(Clone, Copy, Debug, PartialEq, Eq)]
pub enum Standing {
    /// There is nothing.
    Nothing,
    /// A symbolic link.
    Link,
    /// A regular file.
    File,
    /// A directory.
    Folder,
    /// A device, a pipe or a socket.
    Special,
}

/// The status of an open file.
#[derive(Clone, Copy, Debug)]
pub struct Status {
    /// Whether it is a regular file.
    pub is_plain: bool,
    /// The length of the file in bytes.
    pub len: u64,
    /// The time of the last change. It is the beginning of 1970 if the system doesn't report one.
    pub modified: FileTime,
}

/// A file that is open for reading.
pub trait Source: Drop {
    // The file, if it is known.
    ghost stored: { Self → Option Stored };

    // The bytes that the next reads return, if they are known.
    ghost remaining: { Self → Option (List ℕ) };

    // No call on the file fails.
    ghost works: { Self → Bool };

    /// Reads some of the next bytes into `room` and returns how many. Returns 0 only at the end, or if `room` is empty.
    fn read(&mut self, room: &mut [u8]) -> io::Result<usize>
        ensures { ReadsSome remaining stored works self.old self.new result room.new };

    /// Moves to the offset `place`, in bytes from the start.
    fn go_to(&mut self, place: u64) -> io::Result<()>
        ensures { GoesTo place remaining stored works self.old self.new result };

    /// Returns the status of the file.
    fn status(&self) -> io::Result<Status>
        ensures { ReadsStatus (stored self.now) (works self.now) result };
}

/// A newly created file that is open for writing.
pub trait Made: io::Write + Drop {
    // The file was last changed at this time, if that is known.
    ghost changed: { Self → Time → Type 0 };

    // All bytes of the file and its metadata are on the disk.
    ghost synced: { Self → Type 0 };

    /// Returns the time of the last change, as [`Status::modified`] reports it. This is the time of creation, as long
    /// as nothing was written to the file and no time was set.
    fn modified(&self) -> FileTime
        ensures { changed self.now result };
}

/// A file system: files that are accessed by path.
pub trait Folder {
    type File: Source;

    type Made: Made;

    // What is at the paths, as far as that is known.
    ghost known: { Self → World };

    // Nobody else changes the files. So the result of each change is known.
    ghost alone: { Self → Bool };

    // Locked files are known: the file at a path doesn't change while its lock exists.
    ghost guards: { Self → Bool };

    // A call fails only if memory runs out, or because of what is at the paths.
    ghost works: { Self → Bool };

    // All bytes of the file that was moved to a path were on the disk before.
    ghost durable: { Self → List ℕ → Type 0 };

    /// Returns the type of what is at `path`. No link is followed.
    fn look(&self, path: Path<'_>) -> io::Result<Standing>
        ensures { Sees (works self.now) (known self.now (path_bytes path.entry)) result };

    /// Returns the text of the symbolic link at `path`.
    fn read_link(&self, alloc: Global, path: Path<'_>) -> io::Result<PathBuf>
        ensures { ReadsLink (works self.now) (known self.now (path_bytes path.entry)) result };

    /// Opens the file that `path` leads to. The next read is at its start.
    fn open(&self, path: Path<'_>) -> io::Result<Self::File>
        ensures opened { OpensAs (known self.now (path_bytes path.entry)) Self.File.stored result }
        ensures start { IfOk result
            (λ file. Self.File.remaining file ≡ whole_of (Self.File.stored file)) }
        ensures missing { IfErr result (MayLack (known self.now (path_bytes path.entry))) }
        ensures fault { FailsAs (works self.now) (known self.now (path_bytes path.entry)) result }
        ensures works { works self.now ≡ true
            → IfOk result (λ file. Self.File.works file ≡ true) };

    /// Creates a new file at `path`. Fails if something is there.
    fn make(&mut self, path: Path<'_>) -> io::Result<Self::Made>
        ensures { MakesFile known alone guards works Self.Made.contents self.old self.new path.entry
            result };

    /// Gives the new file `made` the permissions of the file at `path`, if there is one.
    fn copy_permissions(&self, made: &mut Self::Made, path: Path<'_>) -> io::Result<()>
        ensures { KeepsMade Self.Made.contents Self.Made.changed made.old made.new (works self.now)
            result };

    /// Sets the time of the last change of the new file `made`.
    fn set_time(&self, made: &mut Self::Made, time: FileTime) -> io::Result<()>
        ensures { GivesTime Self.Made.contents Self.Made.changed made.old made.new (works self.now)
            time result };

    /// Writes all bytes of the new file `made`, and its metadata, to the disk.
    fn sync(&self, made: &mut Self::Made) -> io::Result<()>
        ensures kept { KeepsMade Self.Made.contents Self.Made.changed made.old made.new
            (works self.now) result }
        ensures synced { OnOk result (Self.Made.synced made.new) };

    /// Closes the new file `made` and moves it from the path `from` to the path `to`. It replaces the file at `to`.
    fn put(&mut self, made: Self::Made, from: Path<'_>, to: Path<'_>) -> io::Result<()>
        ensures moved { OnOk result (alone self.old ≡ true
            → Moves (known self.old) (known self.new) (path_bytes from.entry)
            (path_bytes to.entry) (Self.Made.contents made) (Self.Made.changed made)) }
        ensures durable { OnOk result
            (Self.Made.synced made → durable self.new (path_bytes to.entry)) }
        ensures unmoved { OnErr result (known self.new ≡ known self.old) }
        ensures fault { works self.old ≡ true
            → IfErr result (λ e. error_kind e ≡ ErrorKind.OutOfMemory) }
        ensures alone { alone self.new ≡ alone self.old }
        ensures works { works self.new ≡ works self.old };

    /// Removes the file at `path`.
    fn remove(&mut self, path: Path<'_>) -> io::Result<()>
        ensures { RemovesFile known alone works self.old self.new path.entry result };
}
