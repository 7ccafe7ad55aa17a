//! Tests of the sets of all flags, and of how stats are compared by default.

use gix_index::BitFlags as _;
use gix_index::entry::{FileTime, Flags, Stat, at_rest, stat};

#[test]
fn all_flags(rt: HostRuntime) {
    assert_eq!(rt; Flags::all().bits(), 0xffff_ffff);
    assert_eq!(rt; at_rest::FlagsExtended::all().bits(), 0x6000);
    let both = Flags::INTENT_TO_ADD | Flags::SKIP_WORKTREE;
    assert_eq!(rt; at_rest::FlagsExtended::all().to_flags(), Some(both));
}

/// Nanoseconds are not compared by default.
#[test]
fn a_stat_of_the_second_of_the_index_is_racy(rt: HostRuntime) {
    let mut seen = Stat::default();
    seen.mtime.secs = 10;
    let options = stat::Options::default();
    let same = FileTime::new(10, 9).unwrap_or(FileTime::EPOCH);
    assert!(rt; seen.is_racy(same, options));
    let next = FileTime::new(11, 0).unwrap_or(FileTime::EPOCH);
    assert!(rt; !seen.is_racy(next, options));
    let before = FileTime::new(9, 0).unwrap_or(FileTime::EPOCH);
    assert!(rt; seen.is_racy(before, options));
}
