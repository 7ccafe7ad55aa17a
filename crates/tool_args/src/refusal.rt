//! The answers to arguments that a command doesn't accept.

ghost use Rattle.std.specs.Prelude.{[], ◌∷◌, ◌≡◌, IfOk};
ghost use Rattle.clap.specs.Values.{kind_of};
ghost use Rattle.clap.specs.declared.error.kind.ErrorKind.{ErrorKind};
ghost use Rattle.tool_args.specs.Answers.{Answers};
ghost use Rattle.tool_args.specs.Meaning.{Says};

use crate::answer::Answer;
use crate::table;
use clap::error::ErrorKind;
use std::alloc::{AllocError, Global};

/// The text for a name that no command has.
pub const NO_COMMAND: &str = "there is no such command";

/// The text if a command that prints has no arguments.
pub const NO_INPUT: &str =
    "KIND and FILE are missing; with --auto each may be left out, FILE in a work tree";

/// The text if a command that changes a file has no arguments.
pub const NO_CHANGED: &str = "KIND and FILE are missing; with --auto KIND may be left out";

/// The text if a command that writes has no arguments.
pub const NO_WORDS: &str = "KIND, FILE and OUT are missing; with --auto KIND may be left out";

/// The text if KIND is the only argument, and one must follow it.
pub const NO_FILE: &str = "FILE is missing behind KIND";

/// The text if KIND is the only argument, and two must follow it.
pub const NO_FILE_AND_OUT: &str = "FILE and OUT are missing behind KIND";

/// The text if the last argument of a command that writes is missing.
pub const NO_OUT: &str = "OUT is missing behind FILE";

/// Returns an answer with this `ErrorKind` and this text, for the arguments after a command's name, with the command's
/// usage.
pub fn refusal(alloc: Global, name: &str, kind: ErrorKind, text: &str) -> Answer
    ensures { Answers (Says (kind ∷ [])) result }
{
    match with_usage(alloc, name, kind, text) {
        Ok(error) => Answer::from(error),
        Err(_) => Answer::OutOfMemory,
    }
}

fn with_usage(
    alloc: Global,
    name: &str,
    kind: ErrorKind,
    text: &str,
) -> Result<clap::Error, AllocError>
    ensures { IfOk result (λ e. kind_of e ≡ kind) }
{
    let full = format!(in alloc; "{} {name}", table::PROGRAM)?;
    let mut command = table::command(alloc, name)?.bin_name(full.as_str())?;
    command.error(kind, text)
}

/// Returns the answer to an argument in the position of KIND that names no hash algorithm.
pub fn no_kind(alloc: Global, name: &str, word: &str) -> Answer
    ensures { Answers (Says (ErrorKind.InvalidValue ∷ [])) result }
{
    match format!(in alloc;
        "invalid value '{word}' for KIND: it is sha1 or sha256, or left out with --auto"
    ) {
        Ok(text) => refusal(alloc, name, ErrorKind::InvalidValue, text.as_str()),
        Err(_) => Answer::OutOfMemory,
    }
}

/// Returns the answer to `-` as OUT: an index replaces a file, by means of its lock.
pub fn no_out(alloc: Global, name: &str) -> Answer
    ensures { Answers (Says (ErrorKind.InvalidValue ∷ [])) result }
{
    let text = "invalid value '-' for OUT: it is the path of a file, as `./-` is";
    refusal(alloc, name, ErrorKind::InvalidValue, text)
}

/// Returns the answer to `-` as a file that is changed: the standard input has the changes.
pub fn no_file(alloc: Global, name: &str) -> Answer
    ensures { Answers (Says (ErrorKind.InvalidValue ∷ [])) result }
{
    let text = "invalid value '-' for FILE: the standard input has the changes";
    refusal(alloc, name, ErrorKind::InvalidValue, text)
}

/// Returns the answer for missing arguments, which the text names.
pub fn missing_argument(alloc: Global, name: &str, text: &str) -> Answer
    ensures { Answers (Says (ErrorKind.MissingRequiredArgument ∷ [])) result }
{
    refusal(alloc, name, ErrorKind::MissingRequiredArgument, text)
}
