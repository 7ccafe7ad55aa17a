//! `index-change-rows`: for each row of a table, prints the index after it was edited, verified, merged or written.
//!
//! The table is standard input. `tests/model/DIALECT.md` describes how a row is written and which lines answer it. If a
//! row can't be understood, the program prints the number of its line to standard error and ends with status 1.
#![tactic(auto)]

mod edits;
mod files;
mod images;
mod merges;
mod objects;
mod parts;
mod trees;
mod worktree;
mod written_trees;

use gix_index::write::VersionChoice;
use std::process::ExitCode;
use test_row_kit::{Answer, Fault, Lines, Words, rows};

/// The rows of this program. A new call is an arm of one of the two matches.
struct Rows;

impl Answer for Rows {
    fn answer(&self, call: &str, words: &mut Words<'_>, out: &mut Lines) -> Result<(), Fault> {
        match call {
            "change-mode" => worktree::change_mode(out, words),
            "racy" => worktree::racy(out, words),
            "stats" => worktree::stats(out, words),
            "stat" => worktree::stat(out, words),
            "entry-time" => worktree::entry_time(out, words),
            "file-time" => worktree::file_time(out, words),
            "compare-times" => worktree::compare_times(out, words),
            "tree-mode" => worktree::tree_mode(out, words),
            "verify-bytes" => files::verify_bytes(out, words),
            "sparse-mark" => images::sparse_mark(out),
            _ => answer_index(call, words, out),
        }
    }
}

/// Appends the answer to a call whose first argument is a hash algorithm.
fn answer_index(call: &str, words: &mut Words<'_>, out: &mut Lines) -> Result<(), Fault> {
    let kind = words.kind()?;
    match call {
        "edits" => edits::edits(out, kind, words),
        "verify-tree" => trees::tree(out, kind, words),
        "verify-extensions" => trees::extensions(out, kind, words),
        "verify-tree-ids" => written_trees::verify(out, kind, words),
        "write-trees" => written_trees::write(out, kind, words),
        "from-tree" => trees::leaves(out, kind, words),
        "image" => images::image(out, VersionChoice::Smallest, kind, words),
        "image4" => images::image(out, VersionChoice::V4, kind, words),
        "end-marker" => images::end_marker(out, kind, words),
        "write-tree" => images::tree(out, kind, words),
        "merge" => merges::merge(out, kind, words),
        "take-link" => parts::take_link(out, kind, words),
        "set-version" => parts::set_version(out, kind, words),
        "write-file" => files::write_file(out, kind, words),
        _ => Err(Fault::Wrong("the name of a call")),
    }
}

fn main(rt: HostRuntime) -> ExitCode {
    rows(&rt, "index-change-rows", &Rows)
}
