//! Formats untracked caches.

use super::extension::MOST;
use gix_index::entry::Stat;
use gix_index::extension::UntrackedCache;
use gix_index::extension::untracked_cache::{Directory, OidStat};
use std::fmt::{self, Display};
use test_row_kit::Lines;
use test_row_kit::show::{Listed, OrNone, StatNumbers, Text, yes};

/// Appends the values of an untracked cache, and the first [`MOST`] of its directories in preorder.
pub fn untracked(out: &mut Lines, cache: Option<&UntrackedCache>) {
    let Some(cache) = cache else {
        return out.put("untracked", "none");
    };
    writeln!(out, "untracked: {} directories", cache.directories().len());
    writeln!(out, "untracked dir_flags: {:08x}", cache.dir_flags());
    out.put("untracked identifier", Text(cache.identifier()));
    out.put(
        "untracked info_exclude",
        OrNone(cache.info_exclude().map(File)),
    );
    out.put(
        "untracked excludes_file",
        OrNone(cache.excludes_file().map(File)),
    );
    let name = Text(cache.exclude_filename_per_dir());
    out.put("untracked exclude_filename_per_dir", name);
    for (place, it) in cache.directories().iter().take(MOST).enumerate() {
        directory(out, place, it);
    }
}

/// Displays a file: its id and its stat numbers.
#[derive(Clone, Copy)]
struct File<'a>(&'a OidStat);

impl Display for File<'_> {
    fn fmt<W: fmt::Write>(&self, f: &mut fmt::Formatter<W>) -> fmt::Result {
        write!(f, "{} {}", self.0.id(), StatNumbers(*self.0.stat()))
    }
}

fn directory(out: &mut Lines, place: usize, it: &Directory) {
    writeln!(out, "directory {place} name: {}", Text(it.name()));
    let mut names = Vec::new(out.alloc());
    for name in it.untracked_entries() {
        out.note(names.push(Text(name)));
    }
    let directories = Listed(it.sub_directories());
    let id = OrNone(it.exclude_file_oid());
    let stat = OrNone(it.stat().map(|stat: &Stat| StatNumbers(*stat)));
    writeln!(
        out,
        "directory {place} untracked_entries: {}",
        Listed(&names)
    );
    writeln!(out, "directory {place} sub_directories: {directories}");
    writeln!(
        out,
        "directory {place} check_only: {}",
        yes(it.check_only())
    );
    writeln!(out, "directory {place} exclude_file_oid: {id}");
    writeln!(out, "directory {place} stat: {stat}");
}
