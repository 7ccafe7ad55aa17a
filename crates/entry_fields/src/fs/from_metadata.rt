//! An entry's stat numbers and mode from a file's metadata.

ghost use Rattle.std.specs.Prelude.{◌≡◌, ◌&&◌};
ghost use Rattle.std.specs.Option.{option_map};
ghost use Rattle.entry_fields.specs.ModeChange.{mode_change_of, change_due, is_file_kind, is_directory_kind};
ghost use Rattle.entry_fields.specs.ModeChange.{is_symlink_kind};
ghost use Rattle.entry_fields.specs.Stat.{stored_time, stat_of_file};

use super::Metadata;
use crate::entry::mode::{Change, Mode};
use crate::entry::stat::convert::low_half;
use crate::entry::stat::{FileTime, Stat, Time};

/// Returns the time as an entry stores it. It is zero if there is no time or it is before 1970.
fn time_of(time: Option<FileTime>) -> Time
    ensures { result ≡ stored_time time }
{
    let Some(time) = time else {
        return Time { secs: 0, nsecs: 0 };
    };
    match Time::from_system(time) {
        Ok(time) => time,
        Err(_e) => Time { secs: 0, nsecs: 0 },
    }
}

impl Stat {
    /// Returns the stat of a file: `modified` as mtime and `created` as ctime, and the low 32 bits of each number. A
    /// time that is missing or before 1970 is zero.
    pub fn from_fs(stat: &Metadata) -> Stat
        ensures { result ≡ stat_of_file stat.now }
    {
        Stat {
            mtime: time_of(stat.modified),
            ctime: time_of(stat.created),
            dev: low_half(stat.dev),
            ino: low_half(stat.ino),
            uid: stat.uid,
            gid: stat.gid,
            size: low_half(stat.len),
        }
    }
}

impl Mode {
    /// Returns the change after which the mode is that of a file with this metadata, or None if it matches.
    ///
    /// `has_symlinks` and `executable_bit` are what the file system supports. Without links a file is in place of a
    /// link. Without the bit a file's mode is unchanged.
    pub fn change_to_match_fs(
        self,
        stat: &Metadata,
        has_symlinks: bool,
        executable_bit: bool,
    ) -> Option<Change>
        ensures { option_map mode_change_of result ≡ change_due self.0 (record {
          is_file = is_file_kind stat.now.kind;
          is_dir = is_directory_kind stat.now.kind;
          is_symlink = is_symlink_kind stat.now.kind;
          is_executable = is_file_kind stat.now.kind && stat.now.owner_executable;
          has_symlinks = has_symlinks;
          executable_bit = executable_bit;
        }) }
    {
        self.change_to_match_fs_with_values(
            stat.is_file(),
            stat.is_dir(),
            stat.is_symlink(),
            stat.is_executable(),
            has_symlinks,
            executable_bit,
        )
    }
}
