//! Entries whose stat data would be trusted too soon.

ghost use Rattle.std.specs.Prelude.{◌≡◌, All, map};
ghost use Rattle.entry_fields.specs.declared.entry.stat.FileTime.{FileTime};
ghost use Rattle.entry_list.specs.Record.{IdsAreOf};
ghost use Rattle.index_parts.specs.declared.hash.Kind.{Kind};
ghost use Rattle.index_state.specs.Edits.{with_records};
ghost use Rattle.index_state.specs.Racy.{MayBeTrusted, smudged, smudged_entry, smudged_stat};
ghost use Rattle.index_state.specs.State.{KeepsStorable, PathsInStorage, contents, entries_of, records, storage_of};

use crate::State;
use entry_fields::entry::{FileTime, Mode, Stat};
use entry_list::Entry;

/// Returns the stat of an entry with this mode. Its size is set to 0 if the file may have changed since an index of
/// this time was written.
fn smudged_stat(time: FileTime, mode: Mode, stat: Stat) -> Stat
    ensures { result ≡ smudged_stat time mode.0 stat }
{
    if mode != Mode::COMMIT && i64::from(stat.mtime.secs) >= time.unix_seconds() {
        return Stat { size: 0, ..stat };
    }
    stat
}

/// Replaces each entry's stat by the result of [`smudged_stat`].
fn smudge(entries: &mut [Entry], time: FileTime)
    ensures { entries.new ≡ map (smudged_entry time) entries.old }
{
    for i in 0..entries.len() {
        entries[i].stat = smudged_stat(time, entries[i].mode, entries[i].stat);
    }
}

impl State {
    /// Sets the size to 0 in the stat of each entry whose file was last changed in the second of `time` or later,
    /// except submodules. The stat of such a file doesn't show that the file is as it was staged. With size 0 git reads
    /// the file's content (Git's documentation, racy-git, "Racy Git"). Everything else is unchanged.
    ///
    /// If `time` is the time of the index that was read, the entries may be written as an index of any later time. Each
    /// stat that git trusts then was trusted in the index that was read.
    pub fn smudge_racy(&mut self, time: FileTime)
        ensures smudged { contents self.new
            ≡ with_records (contents self.old) (map (smudged time) (records self.old)) }
        ensures trusted { (later : FileTime) → All (λ r. MayBeTrusted later (smudged time r)
            → MayBeTrusted time r) (records self.old) }
        ensures storage { storage_of self.new ≡ storage_of self.old }
        ensures placed { PathsInStorage self.old → PathsInStorage self.new }
        ensures ids { (kind : Kind) → IdsAreOf kind (entries_of self.old)
            → IdsAreOf kind (entries_of self.new) }
        ensures storable { KeepsStorable self.old self.new }
    {
        smudge(&mut self.parts.entries, time);
    }
}
