//! Comparison of a file's stat with one that was taken before.

ghost use Rattle.std.specs.Prelude.{◌≡◌};
ghost use Rattle.entry_fields.specs.StatMatch.{is_match, is_racy, nanoseconds_count, same_place, same_time};

use super::{FileTime, Options, Stat, Time};
use std::cmp::Ordering;

impl Options {
    /// Returns whether nanoseconds are compared.
    fn nanoseconds_count(&self) -> bool
        ensures { result ≡ nanoseconds_count self.now }
    {
        self.use_nsec && self.check_stat
    }
}

/// Returns whether the seconds are equal, and with `nanoseconds` also the nanoseconds.
fn is_same_time(a: Time, b: Time, nanoseconds: bool) -> bool
    ensures { result ≡ same_time a b nanoseconds }
{
    a.secs == b.secs && (!nanoseconds || a.nsecs == b.nsecs)
}

impl Stat {
    /// Returns whether inode, owner and group are equal, and with `device` also the device.
    fn is_same_place(&self, other: &Stat, device: bool) -> bool
        ensures { result ≡ same_place self.now other.now device }
    {
        self.ino == other.ino
            && self.uid == other.uid
            && self.gid == other.gid
            && (!device || self.dev == other.dev)
    }

    /// Returns whether this is the stat of the same unchanged file, as far as the options compare it. Its mtime and
    /// size are always compared. Its ctime, and its inode, owner, group and device are compared if they are trusted.
    pub fn matches(&self, other: &Stat, options: Options) -> bool
        ensures { result ≡ is_match self.now other.now options }
    {
        let nanoseconds = options.nanoseconds_count();
        is_same_time(self.mtime, other.mtime, nanoseconds)
            && self.size == other.size
            && (!options.trust_ctime || is_same_time(self.ctime, other.ctime, nanoseconds))
            && (!options.check_stat || self.is_same_place(other, options.use_stdev))
    }

    /// Returns whether the file may have changed at the time of the index itself or later, so that its stat proves
    /// nothing. This is so if its mtime is not earlier than `timestamp`.
    pub fn is_racy(&self, timestamp: FileTime, options: Options) -> bool
        ensures { result ≡ is_racy self.now timestamp options }
    {
        match timestamp.unix_seconds().cmp(&i64::from(self.mtime.secs)) {
            Ordering::Less => true,
            Ordering::Equal => {
                !options.nanoseconds_count() || timestamp.nanoseconds() <= self.mtime.nsecs
            }
            Ordering::Greater => false,
        }
    }
}
