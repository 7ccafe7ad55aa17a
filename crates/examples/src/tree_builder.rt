//! `examples tree-builder LIST OUT`: builds the tree objects of a list of files, and an index of the list.
//!
//! LIST has lines as `git ls-files --stage` and `git ls-tree -r` print them, in any order: the mode in octal digits, an
//! id of SHA-1, a tab and a path. Other words before the tab are ignored. The index is written to OUT, which is locked
//! as git locks an index. The program prints the id of the root, the number of entries, and the digest at the end of
//! the file.

ghost use Rattle.std.specs.Prelude.{◌≡◌, IfErr, IfOk, IsPermutation, None, map};
ghost use Rattle.gix_index.specs.Order.{IsStrictlyOrdered};
ghost use Rattle.gix_index.specs.State.{records};
ghost use Rattle.examples.specs.Listed.{RepeatedPathCause, listed_record};

use gix_index::entry::{FileTime, Flags, Mode, Stage, Stat};
use gix_index::file::System;
use gix_index::file::lock::{Durable, acquire};
use gix_index::hash::{Kind, ObjectId};
use gix_index::init::ComponentCheck;
use gix_index::verify::entries;
use gix_index::write_trees::Discard;
use gix_index::{BitFlags as _, File, State, write};
use std::alloc::{AllocError, Global};
use std::fs;
use std::path::PathBuf;

/// A file that is listed for an index.
#[derive(Clone, Copy)]
struct Listed<'a> {
    mode: Mode,
    id: ObjectId,
    stat: Stat,
    path: &'a [u8],
}

/// Returns the files as entries, in the order of the list.
fn unsorted(alloc: Global, kind: Kind, files: &[Listed<'_>]) -> Result<State, AllocError>
    ensures { IfOk result (λ state. records state ≡ map listed_record files.now) }
{
    let mut state = State::new(alloc, kind, FileTime::EPOCH);
    for file in files {
        let flags = Flags::from_stage(Stage::Unconflicted);
        state.dangerously_push_entry(file.stat, file.id, flags, file.mode, file.path)?;
    }
    Ok(state)
}

/// Returns the index of exactly the listed files, in strict order. The list can be in any order. If a path is listed
/// twice, the error names it.
fn index_of(alloc: Global, kind: Kind, files: &[Listed<'_>]) -> Result<State, entries::Error>
    ensures ordered { IfOk result (λ state. IsStrictlyOrdered (records state)) }
    ensures exactly { IfOk result
        (λ state. IsPermutation (map listed_record files.now) (records state)) }
    ensures twice { IfErr result (RepeatedPathCause files.now) }
{
    let mut state = unsorted(alloc, kind, files)?;
    state.sort_entries()?;
    state.verify_entries()?;
    Ok(state)
}

/// A check that accepts all names. The names of the list were in a tree before.
struct AnyName;

impl ComponentCheck for AnyName {
    ghost refusal = { λ _ _ _. None };

    fn check(&self, _name: &[u8], _symlink: bool) -> Result<(), u32> {
        Ok(())
    }
}

/// Parses a line. Returns the file that it lists.
fn file_in(alloc: Global, line: &str) -> Option<Listed<'_>> {
    let (head, path) = line.split_once('\t')?;
    let (mut words, path) = (head.split(' '), path.as_bytes());
    let mode = Mode::from_bits_retain(u32::from_str_radix(words.next()?, 8).ok()?);
    let digits = words.find(|word| word.len() == 40)?;
    let id = ObjectId::from_bytes(&hex::decode(alloc, digits).ok()?)?;
    let stat = Stat::default();
    Some(Listed {
        mode,
        id,
        stat,
        path,
    })
}

/// Runs the example.
pub fn run(rt: &HostRuntime, words: &[&str]) -> anyhow::Result<()> {
    let alloc = rt.alloc();
    let &[list, out] = words else {
        return Err(anyhow::Error::msg("usage: examples tree-builder LIST OUT"));
    };
    let text = fs::read_to_string(rt, list)?;
    let mut files = Vec::new(alloc);
    for line in text.as_str().lines() {
        files.push(file_in(alloc, line).ok_or(anyhow::Error::msg("a line lists no file"))?)?;
    }
    let state = index_of(alloc, Kind::Sha1, &files)?;
    let tree = state.write_trees(alloc, &AnyName, &mut Discard)?;
    println!(rt; "tree {}", tree.id)?;
    let mut folder = System { rt };
    let lock = acquire(&mut folder, alloc, PathBuf::from_str(alloc, out)?)?;
    let mut file = File::from_state(state, PathBuf::new(alloc));
    file.commit(
        &mut folder,
        alloc,
        lock,
        write::Options::default(),
        Durable::Yes,
    )?;
    if let Some(checksum) = file.checksum() {
        println!(rt; "{} entries, {checksum}", file.entries().len())?;
    }
    Ok(())
}
