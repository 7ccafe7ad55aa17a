//! `index-tool`: what a git index file holds, on the command line.
#![tactic(auto)]

pub mod command;
mod line;
pub mod terminal;
#[cfg(test)]
mod tests;
pub mod words;

pub use command::run_in;
use std::process::ExitCode;
pub use words::run;
use words::{answer, words_of};

fn main(rt: HostRuntime) -> ExitCode {
    answer(
        &rt,
        rt.alloc(),
        words_of(&rt),
        &mut rt.stdout(),
        &mut rt.stderr(),
    )
}
