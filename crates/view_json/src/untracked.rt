//! The values of an untracked cache.

ghost use Rattle.std.specs.Prelude.{◌++◌};
ghost use Rattle.std.specs.Option.{option_map};
ghost use Rattle.ext_untracked.specs.Blocks.{directory_value};
ghost use Rattle.view_events.specs.Event.{Adds};
ghost use Rattle.view_json.specs.Json.{directory_members, exclude_value, optional_stat};
ghost use Rattle.view_json.specs.Names.{as_position};
ghost use Rattle.view_json.specs.Values.{begin_of};

use crate::data::append_datum;
use crate::entries::append_stat;
use crate::position::Position;
use crate::values::{append_piece, append_text};
use base_text::append::Appended;
use entry_fields::entry::Stat;
use ext_untracked::{Directory, OidStat};
use view_events::event::Datum::{Absent, Answer, Id};

/// Appends a file of exclude patterns at its position: its stat and its id.
#[tactic(auto, unfolding(crate::specs::Json::exclude_value))]
pub fn append_exclude(
    text: &mut Vec<u8>,
    position: Position<'_>,
    file: Option<&OidStat>,
) -> Appended
    ensures { Adds result text.old text.new
        (begin_of (as_position position.entry) ++ exclude_value (option_map (λ f. f.now) file.entry)) }
{
    let Some(file) = file else {
        return append_datum(text, position, Absent);
    };
    append_piece(text, position, b"{")?;
    append_stat(text, Position::First(b"stat"), file.stat)?;
    append_datum(text, Position::Next(b"id"), Id(Some(file.id)))?;
    text.extend_from_slice(b"}")
}

/// Appends the stat of a directory at its position, or `null` if there is none.
#[tactic(auto, unfolding(crate::specs::Json::optional_stat))]
fn append_optional_stat(text: &mut Vec<u8>, position: Position<'_>, stat: Option<&Stat>) -> Appended
    ensures { Adds result text.old text.new
        (begin_of (as_position position.entry) ++ optional_stat (option_map (λ s. s.now) stat.entry)) }
{
    let Some(stat) = stat else {
        return append_datum(text, position, Absent);
    };
    append_stat(text, position, *stat)
}

/// Appends the facts about a directory, as the first members of its object.
pub fn append_facts(text: &mut Vec<u8>, directory: &Directory) -> Appended
    ensures { Adds result text.old text.new (directory_members (directory_value directory.now)) }
{
    append_text(text, Position::First(b"name"), directory.name())?;
    append_optional_stat(text, Position::Next(b"stat"), directory.stat())?;
    append_datum(
        text,
        Position::Next(b"exclude_file_oid"),
        Id(directory.exclude_file_oid()),
    )?;
    append_datum(
        text,
        Position::Next(b"check_only"),
        Answer(directory.check_only()),
    )
}
