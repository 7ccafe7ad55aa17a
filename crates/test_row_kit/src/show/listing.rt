//! Formats entries with their ids and stat numbers.

use super::Text;
use crate::Lines;
use gix_index::entry::stat::Time;
use gix_index::entry::{FileTime, Flags, Stat};
use gix_index::hash::ObjectId;
use gix_index::{BitFlags as _, Entry, State};
use std::fmt::{self, Display};

/// Displays an id: two digits if all of its bytes are equal, otherwise all digits.
#[derive(Clone, Copy)]
pub struct ShortId(pub ObjectId);

impl Display for ShortId {
    fn fmt<W: fmt::Write>(&self, f: &mut fmt::Formatter<W>) -> fmt::Result {
        let bytes = self.0.as_bytes();
        match bytes.first() {
            Some(byte) if bytes.iter().all(|other| other == byte) => write!(f, "{byte:02x}"),
            _ => write!(f, "{}", self.0),
        }
    }
}

/// Displays the numbers of a stat in the order of the index, joined by `,`.
#[derive(Clone, Copy)]
pub struct StatNumbers(pub Stat);

impl Display for StatNumbers {
    fn fmt<W: fmt::Write>(&self, f: &mut fmt::Formatter<W>) -> fmt::Result {
        let it = self.0;
        write!(f, "{},{},", Seconds(it.ctime), Seconds(it.mtime))?;
        write!(f, "{},{},{},{},{}", it.dev, it.ino, it.uid, it.gid, it.size)
    }
}

/// Displays the time of an entry: seconds, a point, nanoseconds.
#[derive(Clone, Copy)]
pub struct Seconds(pub Time);

impl Display for Seconds {
    fn fmt<W: fmt::Write>(&self, f: &mut fmt::Formatter<W>) -> fmt::Result {
        write!(f, "{}.{}", self.0.secs, self.0.nsecs)
    }
}

/// Displays the time of a file: seconds, a point, nanoseconds.
#[derive(Clone, Copy)]
pub struct FileSeconds(pub FileTime);

impl Display for FileSeconds {
    fn fmt<W: fmt::Write>(&self, f: &mut fmt::Formatter<W>) -> fmt::Result {
        write!(f, "{}.{}", self.0.unix_seconds(), self.0.nanoseconds())
    }
}

/// Displays the fields of an entry that follow its path: stage, mode, flags, id, and the stat if it isn't zero.
#[derive(Clone, Copy)]
pub struct Fields<'a>(pub &'a Entry);

impl Display for Fields<'_> {
    fn fmt<W: fmt::Write>(&self, f: &mut fmt::Formatter<W>) -> fmt::Result {
        let flags = self.0.flags.difference(Flags::STAGE_MASK).bits();
        let (stage, mode) = (self.0.stage_raw(), self.0.mode.bits());
        write!(f, "{stage}:{mode:o}:{flags:x}:{}", ShortId(self.0.id))?;
        if self.0.stat != Stat::default() {
            write!(f, ":{}", StatNumbers(self.0.stat))?;
        }
        Ok(())
    }
}

/// Displays an entry with its path, as an item of a list.
#[derive(Clone, Copy)]
pub struct Item<'a> {
    pub path: &'a [u8],
    pub entry: &'a Entry,
}

impl Display for Item<'_> {
    fn fmt<W: fmt::Write>(&self, f: &mut fmt::Formatter<W>) -> fmt::Result {
        write!(f, "{}:{}", Text(self.path), Fields(self.entry))
    }
}

/// Appends the line `entries` with the list of a state's entries.
pub fn entries(out: &mut Lines, state: &State) {
    write!(out, "entries: [");
    for (place, entry) in state.entries().iter().enumerate() {
        if place > 0 {
            write!(out, ";");
        }
        let path = entry.path(state);
        write!(out, "{}", Item { path, entry });
    }
    writeln!(out, "]");
}
