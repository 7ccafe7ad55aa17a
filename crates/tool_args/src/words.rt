//! From arguments to a command.

ghost use Rattle.std.specs.Prelude.{map};
ghost use Rattle.clap.specs.Matches.{found_of};
ghost use Rattle.clap.specs.Walk.{rows_of};
ghost use Rattle.tool_args.specs.Answers.{Answers, IsMeant, MatchesWords};
ghost use Rattle.tool_args.specs.Meaning.{help_meant, help_words, meaning};

use crate::answer::Answer;
use crate::command::Command;
use crate::refusal::{NO_COMMAND, refusal};
use crate::table;
use crate::values::{command_of, word_of};
use clap::ArgMatches;
use clap::error::ErrorKind;
use std::alloc::Global;
use std::convert::AsStr;

/// Returns what the arguments after the program's name match. An error is the answer to them.
fn match_arguments<'a, S: AsStr>(alloc: Global, words: &'a [S]) -> Result<ArgMatches<'a>, Answer>
    ensures { MatchesWords (map S.text words.now) result }
{
    Ok(table::program(alloc)?.try_get_matches_from(words)?)
}

/// Returns the answer to arguments that request help.
fn help_by(alloc: Global, words: &[&str]) -> Answer
    ensures { Answers (help_meant (map (λ w. w.now) words.now)) result }
{
    match match_arguments(alloc, words) {
        Ok(_) => refusal(alloc, table::HELP, ErrorKind::InvalidSubcommand, NO_COMMAND),
        Err(answer) => answer,
    }
}

/// Returns the answer to `help` with what is given after it: that of the arguments NAME `--help`, or of `--help` alone.
fn help(alloc: Global, given: &ArgMatches<'_>) -> Answer
    ensures { Answers (help_meant (help_words (rows_of (found_of given.now)))) result }
{
    match word_of(given, "COMMAND") {
        Some(name) => help_by(alloc, &[name, "--help"]),
        None => help_by(alloc, &["--help"]),
    }
}

/// Returns the command that the arguments after the program's name are. Nothing is opened or printed.
///
/// The arguments are those that `index-tool --help` describes: a command's name, its options, and KIND and paths. These
/// may be in any order with the options:
///
/// - KIND FILE for a command that prints something or changes FILE, and KIND FILE OUT for one that writes. KIND is
///   `sha1` or `sha256`.
/// - None of them may be left out. With `--auto` KIND may be left out, and for a command that prints something FILE
///   too. A first argument that names no hash algorithm is FILE then.
/// - FILE may be `-` for the standard input. `./sha1` and `./-` are files with these names.
///
/// # Errors
///
/// The [`Answer`] is the help or the version, if the arguments request it, a usage error, or that memory ran out.
pub fn parse<'a, S: AsStr>(alloc: Global, words: &'a [S]) -> Result<Command<'a>, Answer>
    ensures { IsMeant (meaning (map S.text words.now)) result }
{
    let matches = match_arguments(alloc, words)?;
    let Some((name, given)) = matches.subcommand() else {
        return Err(refusal(
            alloc,
            table::HELP,
            ErrorKind::MissingSubcommand,
            "a command is missing",
        ));
    };
    if name == table::HELP {
        return Err(help(alloc, given));
    }
    command_of(alloc, name, given)
}
