//! Times of files in 32 bits.

ghost use Rattle.std.specs.Prelude.{◌≡◌, ◌+◌, ◌/◌, ◌%◌, ◌^◌, pos};
ghost use Rattle.std.specs.Option.{option_map};
ghost use Rattle.entry_fields.specs.Stat.{exact_time, low_time, time_cmp, whole, seconds_of, nanoseconds_of, IsGiven};

use super::{FileTime, OutOfRange, Time};
use std::cmp::Ordering;

/// Returns the seconds, or None if they are negative.
fn whole_seconds(time: FileTime) -> Option<u64>
    ensures { result ≡ whole (seconds_of time) }
{
    let seconds = time.unix_seconds();
    if seconds < 0 {
        return None;
    }
    Some(seconds.unsigned_abs())
}

/// Returns the low 32 bits of a number.
pub(crate) fn low_half(number: u64) -> u32
    ensures { result ≡ number % 2 ^ 32 }
{
    (number % 0x1_0000_0000) as u32
}

/// Returns the time unchanged, or None if its seconds don't fit in 32 bits.
fn exact_time(time: FileTime) -> Option<Time>
    ensures { result ≡ exact_time time }
{
    let seconds = whole_seconds(time)?;
    if seconds < 0x1_0000_0000 {
        return Some(Time {
            secs: seconds as u32,
            nsecs: time.nanoseconds(),
        });
    }
    None
}

/// Converts a time. It is an error if its seconds are negative or need more than 32 bits.
impl TryFrom<FileTime> for Time {
    type Error = OutOfRange;

    ghost try_from_gives = { λ time result. IsGiven (exact_time time) result };

    fn try_from(time: FileTime) -> Result<Time, OutOfRange> {
        match exact_time(time) {
            Some(time) => Ok(time),
            None => Err(OutOfRange),
        }
    }
}

impl Time {
    /// Returns the time with the low 32 bits of its seconds. It is an error if the time is before 1970.
    pub fn from_system(time: FileTime) -> Result<Time, OutOfRange>
        ensures { IsGiven (low_time time) result }
    {
        match whole_seconds(time) {
            Some(seconds) => Ok(Time {
                secs: low_half(seconds),
                nsecs: time.nanoseconds(),
            }),
            None => Err(OutOfRange),
        }
    }

    /// Compares with another time, by seconds and then nanoseconds. None if the other's seconds don't fit in 32 bits.
    pub fn cmp_file_time(&self, other: FileTime) -> Option<Ordering>
        ensures { result ≡ option_map (λ time. time_cmp self.now time) (exact_time other) }
    {
        let other = exact_time(other)?;
        Some(
            self.secs
                .cmp(&other.secs)
                .then(self.nsecs.cmp(&other.nsecs)),
        )
    }
}

/// Converts a time. Complete seconds of the nanoseconds are added to the seconds.
impl From<Time> for FileTime {
    ghost from_gives = { λ time file.
        (seconds_of file ≡ pos (time.secs + time.nsecs / 1000000000))
        × (nanoseconds_of file ≡ time.nsecs % 1000000000) };

    fn from(time: Time) -> FileTime {
        let seconds = u64::from(time.secs) + u64::from(time.nsecs / 1_000_000_000);
        FileTime {
            seconds: seconds as i64,
            nanoseconds: time.nsecs % 1_000_000_000,
        }
    }
}
