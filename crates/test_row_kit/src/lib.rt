//! What the programs share that answer tables of rows:
//!
//! - the loop over a table,
//! - the arguments of a row,
//! - the text of answers.
//!
//! `tests/model/DIALECT.md` describes how rows and answers are written.
#![tactic(auto)]

pub mod fault;
pub mod lines;
pub mod refusal;
pub mod show;
pub mod words;

pub use fault::Fault;
pub use lines::Lines;
use std::io::{self, BufRead, BufReader, BufWriter, Write};
use std::process::ExitCode;
pub use words::Words;

/// A program that answers rows.
pub trait Answer {
    /// Appends the lines of the answer to a call to `out`. `call` is the first argument of the row, `words` are the
    /// others.
    fn answer(&self, call: &str, words: &mut Words<'_>, out: &mut Lines) -> Result<(), Fault>;
}

/// Returns the row and its answer, as lines.
fn answered<A: Answer>(rt: &HostRuntime, program: &A, row: &str) -> Result<String, Fault> {
    let words: Vec<&str> = row.split_whitespace().collect(rt.alloc())?;
    let mut words = Words::new(rt, &words);
    let mut out = Lines::new(rt.alloc());
    writeln!(out, "> {row}");
    program.answer(words.next("a call")?, &mut words, &mut out)?;
    words.end()?;
    Ok(out.end()?)
}

/// Answers each row of the table. `line` is incremented for each line that is read, from 0, so it is the number of the
/// last line that was read, counted from 1.
fn answer_all<A: Answer, W: Write>(
    rt: &HostRuntime,
    program: &A,
    out: &mut W,
    line: &mut u64,
) -> Result<(), Fault> {
    let alloc = rt.alloc();
    for text in BufReader::new(alloc, rt.reader())?.lines(alloc) {
        *line = line.saturating_add(1);
        let text = text?;
        let row = text.as_str();
        if !row.is_empty() && !row.starts_with('#') {
            write!(out, "{}", answered(rt, program, row)?)?;
        }
    }
    Ok(())
}

/// Answers the table. After an error the answers before it are printed all the same.
fn run<A: Answer>(rt: &HostRuntime, program: &A, line: &mut u64) -> Result<(), Fault> {
    let mut out = BufWriter::new(rt.alloc(), io::writer(rt))?;
    let outcome = answer_all(rt, program, &mut out, line);
    out.flush()?;
    outcome
}

/// Answers the table on standard input. For each row, prints the row after `> ` and then the lines of its answer.
///
/// If a row can't be understood, prints the program's `name` and the number of the row's line to standard error and
/// returns status 1. Later rows are not read.
pub fn rows<A: Answer>(rt: &HostRuntime, name: &str, program: &A) -> ExitCode {
    let mut line = 0;
    let Err(fault) = run(rt, program, &mut line) else {
        return ExitCode::SUCCESS;
    };
    let _ = eprintln!(rt; "{name}: line {line} of the table: {fault}");
    ExitCode::FAILURE
}
