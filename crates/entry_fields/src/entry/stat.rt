//! The stat data of an entry's file.

ghost use Rattle.std.specs.Prelude.{◌<◌};

use thiserror::Error;

mod compare;
pub(crate) mod convert;

/// A time since the start of 1970, with the 32 bits of each part that a file stores. Ordered by seconds, then
/// nanoseconds.
#[derive(Clone, Copy, Debug, Default, PartialEq, Eq, PartialOrd, Ord, Hash)]
pub struct Time {
    /// Seconds.
    pub secs: u32,
    /// Nanoseconds after the seconds. A file may have a second or more of them.
    pub nsecs: u32,
}

/// The stat numbers of an entry, each in the 32 bits that a file stores (gitformat-index, "Index entry"). Ordered field
/// by field, in the order of declaration.
#[derive(Clone, Copy, Debug, Default, PartialEq, Eq, PartialOrd, Ord, Hash)]
pub struct Stat {
    /// The time of the last change of the contents.
    pub mtime: Time,
    /// The time of the last change of the file's metadata.
    pub ctime: Time,
    /// The device.
    pub dev: u32,
    /// The inode.
    pub ino: u32,
    /// The owner.
    pub uid: u32,
    /// The owner's group.
    pub gid: u32,
    /// The size in bytes, modulo 2 to the 32nd.
    pub size: u32,
}

/// A time of a file as a system reports it: seconds since the start of 1970, which may be negative, and nanoseconds
/// below one second. Ordered by seconds, then nanoseconds.
#[derive(Clone, Copy, Debug, PartialEq, Eq, PartialOrd, Ord, Hash)]
pub struct FileTime {
    seconds: i64,
    nanoseconds: u32,
    ghost below_a_second: { nanoseconds < 1000000000 },
}

impl FileTime {
    ghost use Rattle.std.specs.Prelude.{◌≡◌, IsSome, IfSome, ◌↔◌};
    ghost use Rattle.entry_fields.specs.Stat.{seconds_of, nanoseconds_of};

    /// The start of 1970.
    pub const EPOCH: FileTime = FileTime {
        seconds: 0,
        nanoseconds: 0,
    };

    /// Returns the time of these parts, or None if the nanoseconds are a second or more.
    pub fn new(seconds: i64, nanoseconds: u32) -> Option<FileTime>
        ensures known { IsSome result ↔ (nanoseconds < 1000000000) }
        ensures seconds { IfSome result (λ time. seconds_of time ≡ seconds) }
        ensures nanoseconds { IfSome result (λ time. nanoseconds_of time ≡ nanoseconds) }
    {
        if nanoseconds < 1_000_000_000 {
            return Some(FileTime {
                seconds,
                nanoseconds,
            });
        }
        None
    }

    /// Returns the seconds since the start of 1970, rounded down.
    pub fn unix_seconds(&self) -> i64
        ensures { result ≡ seconds_of self.now }
    {
        self.seconds
    }

    /// Returns the nanoseconds after the seconds.
    pub fn nanoseconds(&self) -> u32
        ensures value { result ≡ nanoseconds_of self.now }
        ensures below_a_second { result < 1000000000 }
    {
        self.nanoseconds
    }
}

/// The error for a time whose seconds since the start of 1970 don't fit in 32 bits.
#[derive(Clone, Copy, Debug, PartialEq, Eq, Error)]
#[error("the time is before 1970, or its seconds need more than 32 bits")]
pub struct OutOfRange;

/// How far the stat of a file is trusted, as configured in git.
#[derive(Clone, Copy, Debug, PartialEq, Eq, Hash)]
pub struct Options {
    /// Whether the time of the last change of the file's metadata is compared (`core.trustCTime`).
    pub trust_ctime: bool,
    /// Whether inode, owner and group are compared (`core.checkStat`).
    pub check_stat: bool,
    /// Whether nanoseconds are compared too, if `check_stat` is set.
    pub use_nsec: bool,
    /// Whether the device is compared too, if `check_stat` is set.
    pub use_stdev: bool,
}

/// Compares change times and stats, without nanoseconds and device.
impl Default for Options {
    ghost use Rattle.std.specs.Prelude.{◌≡◌, true, false};

    ghost is_default = { λ o. o ≡ record {
      trust_ctime = true;
      check_stat = true;
      use_nsec = false;
      use_stdev = false;
    } };

    fn default() -> Options {
        Options {
            trust_ctime: true,
            check_stat: true,
            use_nsec: false,
            use_stdev: false,
        }
    }
}

const _: () = prove!(FileTime::EPOCH.seconds == 0 && FileTime::EPOCH.nanoseconds == 0);
