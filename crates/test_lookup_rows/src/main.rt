//! `index-lookup-rows`: prints what lookups and searches return for each row of a table.
//!
//! The table is standard input. `tests/model/DIALECT.md` describes how a row is written and which lines answer it. If a
//! row can't be understood, the program prints the number of its line to standard error and ends with status 1.
#![tactic(auto)]

mod icase;
mod ordered;
mod place;
mod search;
mod unordered;

use gix_index::State;
use std::process::ExitCode;
use test_row_kit::{Answer, Fault, Lines, Words, refusal, rows};

/// The rows of this program.
struct Rows;

impl Answer for Rows {
    fn answer(&self, call: &str, words: &mut Words<'_>, out: &mut Lines) -> Result<(), Fault> {
        let kind = words.kind()?;
        let state = match words.state(kind)? {
            Ok(state) => state,
            Err(e) => {
                refusal::decode(out, &e);
                return Ok(());
            }
        };
        match call {
            "lookup" => lookup(out, &state, &words.texts()?)?,
            "search" => search::search(out, &state, words)?,
            "order" => search::order(out, &state),
            _ => return Err(Fault::Wrong("the name of a call")),
        }
        Ok(())
    }
}

/// Appends what the lookups return for the paths. A new lookup is a line in one of the modules `icase`, `ordered` and
/// `unordered`.
fn lookup(out: &mut Lines, state: &State, paths: &[Vec<u8>]) -> Result<(), Fault> {
    icase::lookups(out, state, paths)?;
    if state.is_ordered_by_path() {
        ordered::lookups(out, state, paths)?;
    } else {
        unordered::lookups(out, state, paths);
    }
    Ok(())
}

fn main(rt: HostRuntime) -> ExitCode {
    rows(&rt, "index-lookup-rows", &Rows)
}
