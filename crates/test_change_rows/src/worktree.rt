//! Rows about entries and files of the work tree: modes, stats and times.

use gix_index::BitFlags as _;
use gix_index::entry::mode::Change;
use gix_index::entry::stat::{Options, Time};
use gix_index::entry::{FileTime, Mode, Stat};
use gix_index::fs::{FileKind, Metadata};
use test_row_kit::show::{FileSeconds, OrNone, Seconds, StatNumbers, sign_of, yes};
use test_row_kit::{Fault, Lines, Words};

/// Takes the type of a file: `file`, `directory`, `link` or `other`.
fn file_kind(words: &mut Words<'_>) -> Result<FileKind, Fault> {
    match words.next("the kind of a file")? {
        "file" => Ok(FileKind::File),
        "directory" => Ok(FileKind::Directory),
        "link" => Ok(FileKind::Symlink),
        "other" => Ok(FileKind::Other),
        _ => Err(Fault::Wrong("the kind of a file")),
    }
}

/// Takes letters that select which numbers are compared: `c` for ctime, `s` for the stat, `n` for nanoseconds, `d` for
/// the device.
fn options(words: &mut Words<'_>) -> Result<Options, Fault> {
    let word = words.next("the letters of options")?;
    Ok(Options {
        trust_ctime: word.contains('c'),
        check_stat: word.contains('s'),
        use_nsec: word.contains('n'),
        use_stdev: word.contains('d'),
    })
}

fn metadata_of(kind: FileKind, owner_executable: bool) -> Metadata {
    Metadata {
        kind,
        owner_executable,
        modified: None,
        created: None,
        len: 0,
        dev: 0,
        ino: 0,
        uid: 0,
        gid: 0,
    }
}

/// `change-mode`: appends how an entry's mode has to change to match a file, and the mode after the change.
pub fn change_mode(out: &mut Lines, words: &mut Words<'_>) -> Result<(), Fault> {
    let mode = Mode::from_bits_retain(words.octal()?);
    let metadata = metadata_of(file_kind(words)?, words.yes()?);
    let (has_symlinks, executable_bit) = (words.yes()?, words.yes()?);
    match mode.change_to_match_fs(&metadata, has_symlinks, executable_bit) {
        None => out.put("change_to_match_fs", "none"),
        Some(Change::TypeChange { new_mode }) => {
            writeln!(out, "change_to_match_fs: type {:o}", new_mode.bits());
        }
        Some(Change::ExecutableBit) => {
            out.put("change_to_match_fs", "executable bit");
            if mode == Mode::FILE || mode == Mode::FILE_EXECUTABLE {
                let after = Change::ExecutableBit.apply(mode);
                writeln!(out, "apply: {:o}", after.bits());
            }
        }
    }
    Ok(())
}

/// `racy`: appends whether an entry with this mtime is racy.
pub fn racy(out: &mut Lines, words: &mut Words<'_>) -> Result<(), Fault> {
    let timestamp = words.file_time()?;
    let stat = Stat {
        mtime: words.time()?,
        ..Stat::default()
    };
    out.put("is_racy", yes(stat.is_racy(timestamp, options(words)?)));
    Ok(())
}

/// `stats`: appends whether two stats match.
pub fn stats(out: &mut Lines, words: &mut Words<'_>) -> Result<(), Fault> {
    let options = options(words)?;
    let (one, other) = (words.stat()?, words.stat()?);
    out.put("matches", yes(one.matches(&other, options)));
    Ok(())
}

/// Takes the time of a file. `-` is `None`.
fn optional_time(words: &mut Words<'_>) -> Result<Option<FileTime>, Fault> {
    if words.has("-") {
        return Ok(None);
    }
    Ok(Some(words.file_time()?))
}

/// `stat`: appends the stat of a file.
pub fn stat(out: &mut Lines, words: &mut Words<'_>) -> Result<(), Fault> {
    let metadata = Metadata {
        kind: FileKind::File,
        owner_executable: false,
        modified: optional_time(words)?,
        created: optional_time(words)?,
        dev: words.number()?,
        ino: words.number()?,
        uid: words.number()?,
        gid: words.number()?,
        len: words.number()?,
    };
    out.put("from_fs", StatNumbers(Stat::from_fs(&metadata)));
    Ok(())
}

/// `entry-time`: appends the time of an entry for the time of a file: the exact conversion, and the one to the low
/// bits.
pub fn entry_time(out: &mut Lines, words: &mut Words<'_>) -> Result<(), Fault> {
    let time = words.file_time()?;
    out.put("try_from", OrNone(Time::try_from(time).ok().map(Seconds)));
    out.put(
        "from_system",
        OrNone(Time::from_system(time).ok().map(Seconds)),
    );
    Ok(())
}

/// `file-time`: appends the time of a file for the time of an entry.
pub fn file_time(out: &mut Lines, words: &mut Words<'_>) -> Result<(), Fault> {
    out.put("time", FileSeconds(FileTime::from(words.time()?)));
    Ok(())
}

/// `compare-times`: appends the order of an entry's time and a file's time.
pub fn compare_times(out: &mut Lines, words: &mut Words<'_>) -> Result<(), Fault> {
    let time = words.time()?;
    let order = time.cmp_file_time(words.file_time()?);
    out.put("cmp_file_time", OrNone(order.map(sign_of)));
    Ok(())
}

/// `tree-mode`: appends the mode that a tree object has for an entry with this mode.
pub fn tree_mode(out: &mut Lines, words: &mut Words<'_>) -> Result<(), Fault> {
    let mode = Mode::from_bits_retain(words.octal()?);
    match mode.to_tree_entry_mode() {
        Some(mode) => writeln!(out, "to_tree_entry_mode: {:o}", mode.value()),
        None => out.put("to_tree_entry_mode", "none"),
    }
    Ok(())
}
