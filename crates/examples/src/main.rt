//! `examples NAME WORDS`: examples of how to use the library. Each is a module with a contract of its own.
//!
//! NAME is the name of a module, with `tree-builder` for `tree_builder`. The module describes its arguments and what it
//! prints.
#![tactic(auto)]

mod checkout;
mod merge;
mod repair;
mod sample;
mod stage;
mod status;
mod tree_builder;

use std::env;

fn main(rt: HostRuntime) -> anyhow::Result<()> {
    let alloc = rt.alloc();
    let args: Vec<String> = env::args(&rt)?.skip(1).collect(alloc)?;
    let words: Vec<&str> = args.iter().map(|word| word.as_str()).collect(alloc)?;
    match words.as_slice() {
        ["checkout", rest @ ..] => checkout::run(&rt, rest),
        ["merge", rest @ ..] => merge::run(&rt, rest),
        ["repair", rest @ ..] => repair::run(&rt, rest),
        ["sample", rest @ ..] => sample::run(&rt, rest),
        ["stage", rest @ ..] => stage::run(&rt, rest),
        ["status", rest @ ..] => status::run(&rt, rest),
        ["tree-builder", rest @ ..] => tree_builder::run(&rt, rest),
        _ => Err(anyhow::Error::msg(
            "usage: examples NAME WORDS, with checkout, merge, repair, sample, stage, status or tree-builder as NAME",
        )),
    }
}
