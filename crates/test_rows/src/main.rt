//! `index-rows`: answers a table of rows about indexes, extensions, numbers and the values of an entry.
//!
//! The table is standard input. `tests/model/DIALECT.md` describes how a row is written and which lines answer it. If a
//! row can't be understood, the program prints the number of its line to standard error and ends with status 1.
#![tactic(auto)]

mod cuts;
mod entries;
mod extensions;
mod files;
mod numbers;
mod prefixes;
mod ranges;
mod reading;
mod show;
mod states;

use std::process::ExitCode;
use test_row_kit::{Answer, Fault, Lines, Words, rows};

/// The rows of this program. A new row is a variant of one of the enums `Call`.
struct Rows;

impl Answer for Rows {
    fn answer(&self, call: &str, words: &mut Words<'_>, out: &mut Lines) -> Result<(), Fault> {
        if let Some(call) = states::Call::named(call) {
            return call.answer(words, out);
        }
        if call == "at" {
            return files::at(words, out);
        }
        if call == "content-fronts" {
            return extensions::prefixes(words, out);
        }
        if let Some(call) = extensions::Call::named(call) {
            return call.answer(words, out);
        }
        if let Some(call) = numbers::Call::named(call) {
            return call.answer(words, out);
        }
        match entries::Call::named(call) {
            Some(call) => call.answer(words, out),
            None => Err(Fault::Wrong("the name of a call")),
        }
    }
}

fn main(rt: HostRuntime) -> ExitCode {
    rows(&rt, "index-rows", &Rows)
}
