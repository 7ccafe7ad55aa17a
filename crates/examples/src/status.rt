//! `examples status INDEX SECONDS LIST`: prints the paths of an index whose files may have changed.
//!
//! INDEX is an index of SHA-1. SECONDS is the time at which it was written, in seconds since 1970, as `stat -c %Y
//! INDEX` prints it. LIST has each file of the work tree once, as `stat -c '%Y %Z %d %i %u %g %s %n'` prints it. A path
//! is printed on a line if one of these holds:
//!
//! - No file is there.
//! - The stat of the file differs from that of the entry.
//! - The entry is as new as the index.

ghost use Rattle.std.specs.Prelude.{◌≡◌, IfOk, filter, map};
ghost use Rattle.gix_index.specs.State.{contents, records};
ghost use Rattle.examples.specs.Changed.{may_differ, may_have_changed, stat_seen};

use gix_index::entry::stat::{Options, Time};
use gix_index::entry::{FileTime, Stat};
use gix_index::hash::Kind;
use gix_index::{State, decode};
use std::alloc::{AllocError, Global};
use std::collections::BTreeMap;
use std::fs;
use std::io::{self, BufWriter, Write};

/// Returns the stat of the file that was seen at a path.
fn stat_at<'a>(seen: &BTreeMap<&'a [u8], Stat>, path: &'a [u8]) -> Option<Stat>
    ensures { result ≡ stat_seen seen.now path.now }
{
    seen.get(&path).copied()
}

/// Returns whether a file may differ from its entry: it is missing, its stat differs, or the entry is racy.
fn differs(options: Options, time: FileTime, listed: &Stat, seen: Option<Stat>) -> bool
    ensures { result ≡ may_differ options time listed.now seen }
{
    match seen {
        None => true,
        Some(seen) => !listed.matches(&seen, options) || listed.is_racy(time, options),
    }
}

/// Returns the paths of all entries that may have changed in the work tree, in the order of the index. A path that
/// isn't in `seen` has no file.
fn changed_paths<'a>(
    alloc: Global,
    state: &'a State,
    seen: &BTreeMap<&'a [u8], Stat>,
    options: Options,
) -> Result<Vec<&'a [u8]>, AllocError>
    ensures { IfOk result (λ paths. map (λ p. p.now) paths.items
        ≡ map (λ r. r.path) (filter
        (may_have_changed options (contents state.now).time seen.now) (records state.now))) }
{
    let (mut paths, time) = (Vec::new(alloc), state.timestamp());
    for entry in state.entries() {
        let path = entry.path(state);
        if differs(options, time, &entry.stat, stat_at(seen, path)) {
            paths.push(path)?;
        }
    }
    Ok(paths)
}

/// Returns the low 32 bits of a number in decimal digits.
fn number(word: Option<&str>) -> Option<u32> {
    let n = word?.parse::<u64>().ok()?;
    Some((n % 0x1_0000_0000) as u32)
}

/// Returns the time with these seconds.
fn seconds(word: Option<&str>) -> Option<Time> {
    let secs = number(word)?;
    Some(Time { secs, nsecs: 0 })
}

/// Parses a line. Returns the path and the stat of its file.
fn file_in(line: &str) -> Option<(&[u8], Stat)> {
    let mut words = line.splitn(8, ' ');
    let stat = Stat {
        mtime: seconds(words.next())?,
        ctime: seconds(words.next())?,
        dev: number(words.next())?,
        ino: number(words.next())?,
        uid: number(words.next())?,
        gid: number(words.next())?,
        size: number(words.next())?,
    };
    Some((words.next()?.as_bytes(), stat))
}

/// Runs the example.
pub fn run(rt: &HostRuntime, words: &[&str]) -> anyhow::Result<()> {
    let alloc = rt.alloc();
    let &[index, written, list] = words else {
        return Err(anyhow::Error::msg("usage: examples status INDEX SECONDS LIST"));
    };
    let time = FileTime::new(written.parse::<i64>()?, 0).unwrap_or(FileTime::EPOCH);
    let (bytes, options) = (fs::read(rt, index)?, decode::Options::default());
    let (state, _) = State::from_bytes(alloc, &bytes, time, Kind::Sha1, options)?;
    let text = fs::read_to_string(rt, list)?;
    let mut seen = BTreeMap::new(alloc);
    for line in text.as_str().lines() {
        let (path, stat) = file_in(line).ok_or(anyhow::Error::msg("a line is about no file"))?;
        seen.insert(path, stat)?;
    }
    let mut out = BufWriter::new(alloc, io::writer(rt))?;
    for path in changed_paths(alloc, &state, &seen, Options::default())? {
        out.write_all(path)?;
        out.write_all(b"\n")?;
    }
    Ok(out.flush()?)
}
