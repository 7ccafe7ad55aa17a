//! The arguments with which the program is called, its environment, and the status with which it ends.

ghost use Rattle.std.specs.Prelude.{◌≡◌, ◌≢◌, ◌↔◌};
ghost use Rattle.std.specs.Process.{exit_status};
ghost use Rattle.index_tool.specs.Called.{EndsCall, EndsWords};
ghost use Rattle.index_tool.specs.Calls.{KeepsFaults, reports_in};

use crate::command::{REFUSED, WRONG_WORDS, run_in};
use crate::line::put_line;
use crate::terminal::Terminal;
use gix_index::hash::io::{Plain, Retrying};
use std::alloc::Global;
use std::env::VarError;
use std::io::ErrorKind;
use std::process::ExitCode;
use std::rt::Env;
use std::{env, io};
use tool_defaults::Surroundings;

/// Returns a variable of the environment, or `None` if it isn't set. A value that isn't UTF-8 becomes a path that no
/// file has. Allocation failure is the only error.
fn variable<R: Env + Alloc<A = Global>>(rt: &R, name: &str) -> Result<Option<String>, ErrorKind> {
    match env::var(rt, name) {
        Ok(value) => Ok(Some(value)),
        Err(VarError::NotPresent) => Ok(None),
        Err(VarError::NotUnicode) => match String::from_str(rt.alloc(), "\u{fffd}") {
            Ok(value) => Ok(Some(value)),
            Err(_) => Err(ErrorKind::OutOfMemory),
        },
        Err(VarError::OutOfMemory) => Err(ErrorKind::OutOfMemory),
    }
}

/// Returns how many directories are above the current one, or 0 if that can't be found out.
fn depth<R: Env + Alloc<A = Global>>(rt: &R) -> usize {
    match env::current_dir(rt) {
        Ok(folder) => folder.as_path().as_str().matches('/').count(),
        Err(_) => 0,
    }
}

/// Returns the arguments after the program's name. The error is [`ErrorKind::OutOfMemory`] if an allocation failed, and
/// any other `ErrorKind` if an argument isn't UTF-8.
pub fn words_of<R: Env + Alloc<A = Global>>(rt: &R) -> Result<Vec<String>, ErrorKind> {
    let args = match env::args(rt) {
        Ok(args) => args,
        Err(e) => return Err(e.kind()),
    };
    match args.skip(1).collect::<Vec<String>>(rt.alloc()) {
        Ok(words) => Ok(words),
        Err(_) => Err(ErrorKind::OutOfMemory),
    }
}

/// Returns what `--auto` uses of the program's environment. The only error is [`ErrorKind::OutOfMemory`].
fn surroundings<R: Env + Alloc<A = Global>>(rt: &R) -> Result<Surroundings, ErrorKind> {
    Ok(Surroundings {
        index_file: variable(rt, "GIT_INDEX_FILE")?,
        git_dir: variable(rt, "GIT_DIR")?,
        depth: depth(rt),
    })
}

/// Returns the status of a call whose arguments can't be read. It is [`REFUSED`] if memory ran out, and [`WRONG_WORDS`]
/// if an argument isn't UTF-8.
fn status_of(kind: ErrorKind) -> u8
    ensures refused { (result ≡ REFUSED) ↔ (kind ≡ ErrorKind.OutOfMemory) }
    ensures wrong_words { (result ≡ WRONG_WORDS) ↔ (kind ≢ ErrorKind.OutOfMemory) }
{
    if kind == ErrorKind::OutOfMemory {
        REFUSED
    } else {
        WRONG_WORDS
    }
}

/// Runs the command of these arguments, without the program's name, with [`run_in`], and returns the status with which
/// the program ends. The files are those of the system. The standard input and the environment are the program's.
///
/// A write that a signal interrupts is repeated. If memory runs out while the environment is read, nothing is written
/// to `out`, no file is opened, and the status is [`REFUSED`].
pub fn run<W: io::Write, E: io::Write>(
    rt: &HostRuntime,
    alloc: Global,
    words: &[String],
    out: &mut W,
    faults: &mut E,
) -> u8
    ensures ends { EndsWords words.now result }
    ensures no_fault { KeepsFaults (reports_in words.now) E.contents faults.old faults.new result }
{
    match surroundings(rt) {
        Ok(around) => {
            let mut folder = Terminal::new(rt, rt.stdin());
            let mut out = Plain::new(Retrying { inner: out });
            run_in(&mut folder, alloc, &around, words, &mut out, faults)
        }
        Err(_) => {
            put_line(faults, &"out of memory");
            REFUSED
        }
    }
}

/// Runs the command of the arguments with [`run`], and returns the status with which the program ends.
///
/// If the arguments can't be read, no file is opened, nothing is written to `out`, and one line to `faults`. The status
/// is [`REFUSED`] if memory ran out, and [`WRONG_WORDS`] if an argument isn't UTF-8.
pub fn answer<W: io::Write, E: io::Write>(
    rt: &HostRuntime,
    alloc: Global,
    words: Result<Vec<String>, ErrorKind>,
    out: &mut W,
    faults: &mut E,
) -> ExitCode
    ensures { EndsCall words (W.contents out.old) (W.contents out.new) (exit_status result) }
{
    match words {
        Ok(words) => ExitCode::from(run(rt, alloc, &words, out, faults)),
        Err(kind) => {
            let status = status_of(kind);
            if status == WRONG_WORDS {
                put_line(faults, &"a word of the command isn't UTF-8");
            } else {
                put_line(faults, &"out of memory");
            }
            ExitCode::from(status)
        }
    }
}
