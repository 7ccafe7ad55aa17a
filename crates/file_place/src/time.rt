//! The time of a file's last change: conversion from and to the time of the system.

ghost use Rattle.std.specs.Prelude.{◌≡◌, ◌≤◌, ◌*◌, ◌^◌, IfSome, None};
ghost use Rattle.std.specs.Time.{system_time_nanos};
ghost use Rattle.entry_fields.specs.Stat.{seconds_of, whole};
ghost use Rattle.file_place.specs.Times.{IsTimeOf, is_known_time};

use entry_fields::entry::FileTime;
use std::fs::Metadata;
use std::time::{Duration, SystemTime};

/// Converts a time of the system to seconds and nanoseconds. Returns `None` if the seconds have more than 63 bits.
fn file_time(time: SystemTime) -> Option<FileTime>
    ensures kept { IfSome result (λ parts. IsTimeOf parts time) }
    ensures none { result ≡ None → 2 ^ 63 * 1_000_000_000 ≤ system_time_nanos time }
{
    let since = time.duration_since(SystemTime::UNIX_EPOCH).ok()?;
    FileTime::new(i64::try_from(since.as_secs()).ok()?, since.subsec_nanos())
}

/// Returns whether a file can be given `time` and git takes it for known. It must not be before 1970. Its seconds must
/// not be 0 in the 32 bits that git uses.
pub fn is_known_time(time: FileTime) -> bool
    ensures { result ≡ is_known_time time }
{
    match u64::try_from(time.unix_seconds()) {
        Ok(seconds) => seconds % (1 << 32) != 0,
        Err(_) => false,
    }
}

/// Converts a time to a time of the system. Returns `None` if it is before 1970.
pub fn system_time(time: FileTime) -> Option<SystemTime>
    ensures kept { IfSome result (IsTimeOf time) }
    ensures none { result ≡ None → whole (seconds_of time) ≡ None }
{
    let seconds = u64::try_from(time.unix_seconds()).ok()?;
    SystemTime::UNIX_EPOCH.checked_add(Duration::new(seconds, time.nanoseconds()))
}

/// Returns the time of the last change from the metadata of a file. Returns the beginning of 1970 if there is none, or
/// if it is before 1970.
pub fn modified_of(metadata: &Metadata) -> FileTime {
    let Ok(time) = metadata.modified() else {
        return FileTime::EPOCH;
    };
    file_time(time).unwrap_or(FileTime::EPOCH)
}
