//! A newly created file of the in-memory file system.

ghost use Rattle.std.specs.Prelude.{◌≡◌, false, true, OnOk, Some};
ghost use Rattle.std.specs.Io.{WritesAtMost};
ghost use Rattle.std.specs.Io.KnownBytes.{WriteAppends};
ghost use Rattle.file_place.specs.Shelf.{written_bytes, time_of};

use crate::folder::Made;
use crate::steps::Steps;
use entry_fields::entry::FileTime;
use std::io;
use std::io::Write;

/// A newly created file. Its shelf has it as an empty file until it is moved to its path.
#[derive(Drop)]
pub struct ShelfMade<'a> {
    pub(crate) bytes: Vec<u8>,
    pub(crate) time: FileTime,
    /// The time of the last change after a write.
    pub(crate) now: FileTime,
    /// Whether the file was synced, and not changed since.
    pub(crate) is_synced: bool,
    pub(crate) steps: Steps<'a>,
}

impl Write for ShelfMade<'_> {
    ghost contents = { λ made. Some (written_bytes made) };

    fn write(&mut self, bytes: &[u8]) -> io::Result<usize>
        ensures bound { WritesAtMost result bytes.now }
        ensures bytes { WriteAppends (Some (written_bytes self.old)) (Some (written_bytes self.new)) result
            bytes.now }
        ensures changed { OnOk result (time_of self.new ≡ self.old.now) }
        ensures unsynced { OnOk result (self.new.is_synced ≡ false) }
    {
        self.steps.take()?;
        let count = self.bytes.write(bytes)?;
        self.time = self.now;
        self.is_synced = false;
        Ok(count)
    }

    fn flush(&mut self) -> io::Result<()> {
        self.steps.take()
    }
}

impl Made for ShelfMade<'_> {
    ghost changed = { λ made time. time_of made ≡ time };

    ghost synced = { λ made. made.is_synced ≡ true };

    fn modified(&self) -> FileTime {
        self.time
    }
}
