//! A usage error as text on one line.

use clap::error::ErrorKind;
use file_place::fault::OneLine;
use std::fmt;
use std::fmt::Write as _;

/// What follows the cause and its tips in the text of an error.
const USAGE: &str = "\n\nUsage: ";

/// What precedes each tip.
const TIP: &str = "\n  tip: ";

/// How a tip begins that names what may have been meant.
const SIMILAR: [&str; 4] = [
    "a similar subcommand exists: ",
    "some similar subcommands exist: ",
    "a similar argument exists: ",
    "a similar value exists: ",
];

/// Displays the cause of an error of `clap`, with its tips, on one line. Control characters are escaped.
#[derive(Clone, Copy)]
pub(crate) struct Cause<'a>(pub &'a clap::Error);

/// A writer that takes an error's text in one piece and passes on only the cause and the tips.
#[derive(Drop)]
struct CauseWriter<'a, W> {
    out: &'a mut W,
}

/// Returns what a tip names, if the tip names what may have been meant.
fn similar_in(tip: &str) -> Option<&str> {
    for front in SIMILAR {
        if let Some(words) = tip.strip_prefix(front) {
            return Some(words);
        }
    }
    None
}

impl<W: fmt::Write> fmt::Write for CauseWriter<'_, W> {
    fn write_str(&mut self, text: &str) -> fmt::Result {
        let text = text.strip_prefix("error: ").unwrap_or(text);
        let (told, _) = text.rsplit_once(USAGE).unwrap_or((text, ""));
        let mut is_cause = true;
        for part in told.split(TIP) {
            let part = part.trim_end();
            if is_cause {
                write!(self.out, "{}", OneLine(part))?;
            } else if let Some(words) = similar_in(part) {
                write!(self.out, ", did you mean {}?", OneLine(words))?;
            } else {
                write!(self.out, "; {}", OneLine(part))?;
            }
            is_cause = false;
        }
        Ok(())
    }
}

impl fmt::Display for Cause<'_> {
    fn fmt<W: fmt::Write>(&self, f: &mut fmt::Formatter<W>) -> fmt::Result {
        if self.0.kind() == ErrorKind::DisplayHelpOnMissingArgumentOrSubcommand {
            return f.write_str("a command is missing (see index-tool --help)");
        }
        write!(CauseWriter { out: f }, "{}", self.0)
    }
}
