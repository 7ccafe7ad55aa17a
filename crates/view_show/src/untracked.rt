//! The lines of an untracked cache.

ghost use Rattle.std.specs.Option.{option_map};
ghost use Rattle.ext_untracked.specs.Blocks.{directory_value};
ghost use Rattle.view_events.specs.Event.{Adds};
ghost use Rattle.view_show.specs.Untracked.{cached_stat_lines, directory_lines, exclude_lines};

use crate::entries::{append_directory_stat, append_file_stat};
use crate::fields::{append_datum, append_heading, append_text};
use crate::words::{indent_at, line_words};
use base_text::append::Appended;
use entry_fields::entry::Stat;
use ext_untracked::{Directory, OidStat};
use view_events::event::Datum::{Absent, Answer, Id};
use view_events::event::Where;

/// Appends the lines of a file of exclude patterns: its id and its stat.
#[tactic(auto, unfolding(crate::specs::Untracked::exclude_lines))]
pub fn append_exclude(lines: &mut Vec<u8>, at: Where, file: Option<&OidStat>) -> Appended
    ensures { Adds result lines.old lines.new
        (exclude_lines at (option_map (λ f. f.now) file.entry)) }
{
    let Some(file) = file else {
        return append_datum(lines, indent_at(at), line_words(at), Absent);
    };
    append_datum(lines, indent_at(at), line_words(at), Id(Some(file.id)))?;
    append_file_stat(lines, file.stat)
}

/// Appends the lines of a directory's stat.
#[tactic(auto, unfolding(crate::specs::Untracked::cached_stat_lines))]
fn append_cached_stat(lines: &mut Vec<u8>, stat: Option<&Stat>) -> Appended
    ensures { Adds result lines.old lines.new
        (cached_stat_lines (option_map (λ s. s.now) stat.entry)) }
{
    let Some(stat) = stat else {
        return append_datum(lines, b"    ", b"stat", Absent);
    };
    append_heading(lines, b"    ", b"stat")?;
    append_directory_stat(lines, *stat)
}

/// Appends the lines of the facts about a directory.
#[tactic(auto, unfolding(crate::specs::Untracked::directory_lines))]
pub fn append_facts(lines: &mut Vec<u8>, directory: &Directory) -> Appended
    ensures { Adds result lines.old lines.new (directory_lines (directory_value directory.now)) }
{
    append_text(lines, b"    ", b"name", directory.name())?;
    append_datum(
        lines,
        b"    ",
        b"check only",
        Answer(directory.check_only()),
    )?;
    append_datum(
        lines,
        b"    ",
        b"exclude file",
        Id(directory.exclude_file_oid()),
    )?;
    append_cached_stat(lines, directory.stat())
}
