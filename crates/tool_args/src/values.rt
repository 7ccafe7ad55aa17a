//! From the matches of a command to its values.

ghost use Rattle.std.specs.Prelude.{◌≡◌};
ghost use Rattle.clap.specs.Matches.{found_of};
ghost use Rattle.clap.specs.Walk.{first_of, rows_of};
ghost use Rattle.clap.specs.declared.error.kind.ErrorKind.{ErrorKind};
ghost use Rattle.tool_args.specs.Answers.{IsMeant};
ghost use Rattle.tool_args.specs.Commands.{is_set, kind_argument, lines_argument, place_named, place_of, reading_named};
ghost use Rattle.tool_args.specs.Commands.{text_of, writing_named};
ghost use Rattle.tool_args.specs.Meaning.{change_meant, meant, on_three, on_two, read_meant, write_meant};

use crate::answer::Answer;
use crate::command::{Command, Input, Reading, Writing};
use crate::refusal::{
    NO_CHANGED, NO_COMMAND, NO_FILE, NO_FILE_AND_OUT, NO_INPUT, NO_OUT, NO_WORDS, missing_argument,
    no_file, no_kind, no_out, refusal,
};
use crate::table::UPDATE;
use base_text::lines::Lines;
use clap::ArgMatches;
use clap::error::ErrorKind;
use index_parts::hash::Kind;
use std::alloc::Global;

/// Returns the hash algorithm that an argument names, if it names one.
fn kind_of(word: &str) -> Option<Kind>
    ensures { result ≡ kind_argument word.now }
{
    match word {
        "sha1" => Some(Kind::Sha1),
        "sha256" => Some(Kind::Sha256),
        _ => None,
    }
}

/// Returns the location that an argument names.
fn input_of(word: &str) -> Input<'_>
    ensures { place_of result ≡ place_named word.now }
{
    if word == "-" {
        Input::Stdin
    } else {
        Input::File(word)
    }
}

/// Returns the value of the argument `id`, if it is given.
pub fn word_of<'a>(given: &ArgMatches<'a>, id: &str) -> Option<&'a str>
    ensures { text_of result ≡ first_of id.now (rows_of (found_of given.now)) }
{
    given.get_str(id)
}

/// Returns whether a flag is set.
fn is_set(given: &ArgMatches<'_>, id: &str) -> bool
    ensures { result ≡ is_set id.now (rows_of (found_of given.now)) }
{
    match word_of(given, id) {
        Some(word) => word == "true",
        None => false,
    }
}

/// Returns the style in which lines are written.
fn lines_of(given: &ArgMatches<'_>) -> Lines
    ensures { result ≡ lines_argument (rows_of (found_of given.now)) }
{
    Lines {
        nul: is_set(given, "z"),
        quote: is_set(given, "quote"),
    }
}

/// Returns what the command of this name prints, if it prints something.
fn reading_of(name: &str, given: &ArgMatches<'_>) -> Option<Reading>
    ensures { result ≡ reading_named name.now (rows_of (found_of given.now)) }
{
    let strict = is_set(given, "strict");
    match name {
        "list" => Some(Reading::List(lines_of(given))),
        "check" => Some(Reading::Check { strict }),
        "check-trees" => Some(Reading::CheckTrees { strict }),
        "map" => Some(Reading::Map(lines_of(given))),
        "map-svg" => Some(Reading::MapSvg),
        "show" => Some(Reading::Show),
        "show-json" => Some(Reading::ShowJson),
        "trees" => Some(Reading::Trees(lines_of(given))),
        _ => None,
    }
}

/// Returns what the command of this name writes, if it writes something.
fn writing_of(name: &str, given: &ArgMatches<'_>) -> Option<Writing>
    ensures { result ≡ writing_named name.now (rows_of (found_of given.now)) }
{
    let keep = is_set(given, "keep");
    match name {
        "rewrite" => Some(Writing::Rewrite { keep }),
        "rewrite4" => Some(Writing::Rewrite4 { keep }),
        "rewrite-trees" => Some(Writing::RewriteTrees {
            missing_ok: is_set(given, "missing-ok"),
        }),
        "salvage" => Some(Writing::Salvage {
            all: is_set(given, "all"),
        }),
        _ => None,
    }
}

/// Returns the command with the arguments KIND FILE after this name. With `auto` each may be left out.
fn read_of<'a>(
    alloc: Global,
    name: &str,
    auto: bool,
    what: Reading,
    first: Option<&'a str>,
    second: Option<&'a str>,
) -> Result<Command<'a>, Answer>
    ensures { IsMeant (on_two auto (read_meant auto what) first.entry second.entry) result }
{
    let Some(first) = first else {
        if auto {
            return Ok(Command::Read {
                what,
                kind: None,
                input: None,
            });
        }
        return Err(missing_argument(alloc, name, NO_INPUT));
    };
    let kind = kind_of(first);
    let input = match (kind, second, auto) {
        (Some(_), None, false) => return Err(missing_argument(alloc, name, NO_FILE)),
        (Some(_), second, _) => second,
        (None, None, true) => Some(first),
        (None, _, _) => return Err(no_kind(alloc, name, first)),
    };
    Ok(Command::Read {
        what,
        kind,
        input: input.map(input_of),
    })
}

/// Returns the command with the arguments KIND FILE OUT after this name. With `auto` KIND may be left out.
fn write_of<'a>(
    alloc: Global,
    name: &str,
    auto: bool,
    what: Writing,
    first: Option<&'a str>,
    second: Option<&'a str>,
    third: Option<&'a str>,
) -> Result<Command<'a>, Answer>
    ensures { IsMeant (on_three auto (write_meant what) first.entry second.entry third.entry)
        result }
{
    let Some(first) = first else {
        return Err(missing_argument(alloc, name, NO_WORDS));
    };
    let kind = kind_of(first);
    let (word, to) = match (kind, second, third, auto) {
        (Some(_), None, _, _) => return Err(missing_argument(alloc, name, NO_FILE_AND_OUT)),
        (Some(_), Some(_), None, _) | (None, None, _, true) => {
            return Err(missing_argument(alloc, name, NO_OUT));
        }
        (Some(_), Some(word), Some(to), _) => (word, to),
        (None, Some(to), None, true) => (first, to),
        (None, _, _, _) => return Err(no_kind(alloc, name, first)),
    };
    if to == "-" {
        return Err(no_out(alloc, name));
    }
    Ok(Command::Write {
        what,
        kind,
        input: input_of(word),
        to,
    })
}

/// Returns the command that changes an index, with the arguments KIND FILE after this name. With `auto` KIND may be
/// left out.
fn update_of<'a>(
    alloc: Global,
    name: &str,
    auto: bool,
    nul: bool,
    first: Option<&'a str>,
    second: Option<&'a str>,
) -> Result<Command<'a>, Answer>
    ensures { IsMeant (on_two auto (change_meant nul) first.entry second.entry) result }
{
    let Some(first) = first else {
        return Err(missing_argument(alloc, name, NO_CHANGED));
    };
    let kind = kind_of(first);
    let word = match (kind, second, auto) {
        (Some(_), None, _) => return Err(missing_argument(alloc, name, NO_FILE)),
        (Some(_), Some(word), _) => word,
        (None, None, true) => first,
        (None, _, _) => return Err(no_kind(alloc, name, first)),
    };
    if word == "-" {
        return Err(no_file(alloc, name));
    }
    Ok(Command::Write {
        what: Writing::Update { nul },
        kind,
        input: Input::Changed(word),
        to: word,
    })
}

/// Returns the command of this name with what is given after it. An error is the answer to a usage error, or reports
/// that memory ran out.
pub fn command_of<'a>(
    alloc: Global,
    name: &str,
    given: &ArgMatches<'a>,
) -> Result<Command<'a>, Answer>
    ensures { IsMeant (meant name.now (rows_of (found_of given.now))) result }
{
    let auto = is_set(given, "auto");
    let (first, second) = (word_of(given, "KIND"), word_of(given, "FILE"));
    if let Some(what) = reading_of(name, given) {
        return read_of(alloc, name, auto, what, first, second);
    }
    match writing_of(name, given) {
        Some(what) => write_of(
            alloc,
            name,
            auto,
            what,
            first,
            second,
            word_of(given, "OUT"),
        ),
        None if name == UPDATE => update_of(alloc, name, auto, is_set(given, "z"), first, second),
        None => Err(refusal(alloc, name, ErrorKind::InvalidSubcommand, NO_COMMAND)),
    }
}
