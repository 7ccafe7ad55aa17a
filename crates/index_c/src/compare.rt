//! Whether the file of a row is unchanged: its stat, and its mode.

ghost use Rattle.std.specs.Prelude.{◌≡◌};
ghost use Rattle.gix_index.specs.StatMatch.{is_match};
ghost use Rattle.index_c.specs.Comparing.{RacyCodes, mode_for, options_of, seen_of};
ghost use Rattle.capi_table.specs.Table.{row_stat};

use capi_table::row::{Row, stat_of};
use gix_index::BitFlags as _;
use gix_index::entry::stat::Options;
use gix_index::entry::{FileTime, Mode};

/// Which fields of a stat are compared, by git's configuration (git-config, "core.trustctime" and "core.checkStat").
#[repr(C)]
#[derive(Clone, Copy)]
pub struct Comparison {
    /// Whether the ctime is compared.
    pub trust_ctime: bool,
    /// Whether inode, owner and group are compared.
    pub check_stat: bool,
    /// Whether nanoseconds are compared, with `check_stat`.
    pub use_nsec: bool,
    /// Whether the device is compared, with `check_stat`.
    pub use_stdev: bool,
}

/// What is known of a file in the work tree, and what its file system supports.
#[repr(C)]
#[derive(Clone, Copy)]
pub struct Seen {
    /// Whether it is a plain file.
    pub is_file: bool,
    /// Whether it is a directory.
    pub is_dir: bool,
    /// Whether it is a symbolic link.
    pub is_symlink: bool,
    /// Whether its owner may execute it.
    pub is_executable: bool,
    /// Whether the file system has symbolic links (git-config, "core.symlinks").
    pub has_symlinks: bool,
    /// Whether the file system has an executable bit (git-config, "core.fileMode").
    pub executable_bit: bool,
}

/// Returns the library's options.
fn options_of(comparison: &Comparison) -> Options
    ensures { result ≡ options_of comparison.now }
{
    Options {
        trust_ctime: comparison.trust_ctime,
        check_stat: comparison.check_stat,
        use_nsec: comparison.use_nsec,
        use_stdev: comparison.use_stdev,
    }
}

/// Returns whether two rows have the stat of the same unchanged file, as far as it is compared.
#[unsafe(no_mangle)]
pub extern "C" fn gix_index_matches(row: &Row, seen: &Row, comparison: &Comparison) -> bool
    ensures { result ≡ is_match (row_stat row.now) (row_stat seen.now) (options_of comparison.now) }
{
    stat_of(row).matches(&stat_of(seen), options_of(comparison))
}

/// Returns whether the row's file may have changed when an index of this time was written, or later, so that its stat
/// proves nothing. If the nanoseconds are a second or more, which is no time, it may have changed.
#[unsafe(no_mangle)]
pub extern "C" fn gix_index_is_racy(
    row: &Row,
    secs: i64,
    nsecs: u32,
    comparison: &Comparison,
) -> bool
    ensures { RacyCodes row.now secs nsecs comparison.now result }
{
    match FileTime::new(secs, nsecs) {
        Some(time) => stat_of(row).is_racy(time, options_of(comparison)),
        None => true,
    }
}

/// Returns the mode that a row of this mode takes to match the file, or the same mode if it matches.
#[unsafe(no_mangle)]
pub extern "C" fn gix_index_mode_for(mode: u32, seen: &Seen) -> u32
    ensures { result ≡ mode_for mode (seen_of seen.now) }
{
    let mode = Mode::from_bits_retain(mode);
    let change = mode.change_to_match_fs_with_values(
        seen.is_file,
        seen.is_dir,
        seen.is_symlink,
        seen.is_executable,
        seen.has_symlinks,
        seen.executable_bit,
    );
    match change {
        Some(change) => change.apply(mode).bits(),
        None => mode.bits(),
    }
}
