//! A file of the in-memory file system that is open for reading.

ghost use Rattle.std.specs.Prelude.{Some};
ghost use Rattle.file_place.specs.Shelf.{file_fault, rest_of, stored_of, works_with};

use crate::folder::{Source, Status};
use crate::steps::Steps;
use entry_fields::entry::FileTime;
use std::io;
use std::io::{Cursor, Read, Seek, SeekFrom};

/// An open file, with the content that it had when it was opened.
#[derive(Drop)]
pub struct ShelfFile<'a> {
    pub(crate) bytes: Cursor<Vec<u8>>,
    pub(crate) time: FileTime,
    pub(crate) steps: Steps<'a>,
}

impl Source for ShelfFile<'_> {
    ghost stored = { λ file. Some (stored_of file) };

    ghost remaining = { λ file. rest_of file };

    ghost works = { λ file. works_with (file_fault file) };

    fn read(&mut self, room: &mut [u8]) -> io::Result<usize> {
        self.steps.take()?;
        self.bytes.read(room)
    }

    fn go_to(&mut self, place: u64) -> io::Result<()> {
        self.steps.take()?;
        self.bytes.seek(SeekFrom::Start(place))?;
        Ok(())
    }

    fn status(&self) -> io::Result<Status> {
        self.steps.take()?;
        Ok(Status {
            is_plain: true,
            len: self.bytes.get_ref().len() as u64,
            modified: self.time,
        })
    }
}
