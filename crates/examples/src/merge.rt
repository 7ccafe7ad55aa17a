//! `examples merge OURS BASE THEIRS PATH`: prints an index in which a path is in conflict.
//!
//! OURS, BASE and THEIRS are indexes of SHA-1 that have the path, each with its own file. The entries of OURS are
//! printed with the path in conflict. Plain paths are printed as `git ls-files --stage` prints them. For example:
//! `out/examples merge ../../.git/index data/base.index data/theirs.index docs/a.md`.

ghost use Rattle.std.specs.Prelude.{◌≡◌, ◌++◌, ◌∷◌, [], IfOk, IsPermutation, OnOk};
ghost use Rattle.gix_index.specs.Flags.{stage_code};
ghost use Rattle.gix_index.specs.Sorted.{IsOrdered};
ghost use Rattle.gix_index.specs.State.{PathsInStorage, records};
ghost use Rattle.examples.specs.Conflict.{elsewhere, side_record, stages};

use gix_index::entry::{FileTime, Flags, Mode, Stage, Stat};
use gix_index::hash::{Kind, ObjectId};
use gix_index::{BitFlags as _, State, decode};
use std::alloc::{AllocError, Global};
use std::fs;
use std::io::{self, BufWriter, Write};

/// What one side of a merge has at a path.
#[derive(Clone, Copy)]
struct Side {
    mode: Mode,
    id: ObjectId,
    stat: Stat,
}

/// Pushes an entry for one side, with this stage.
fn push_side(state: &mut State, path: &[u8], stage: Stage, side: Side) -> Result<(), AllocError>
    ensures pushed { OnOk result (PathsInStorage state.old → records state.new
        ≡ records state.old ++ side_record path.now (stage_code stage) side ∷ []) }
    ensures placed { OnOk result (PathsInStorage state.old → PathsInStorage state.new) }
{
    let Side { mode, id, stat } = side;
    state.dangerously_push_entry(stat, id, Flags::from_stage(stage), mode, path)
}

/// Replaces the entries at a path by the three sides, as stages 1, 2 and 3, and sorts the entries. If an allocation
/// fails, some of the sides may be missing.
fn put_in_conflict(
    state: &mut State,
    path: &[u8],
    base: Side,
    ours: Side,
    theirs: Side,
) -> Result<(), AllocError>
    ensures ordered { OnOk result (IsOrdered (records state.new)) }
    ensures exactly { PathsInStorage state.old → OnOk result
        (IsPermutation (elsewhere path.now (records state.old) ++ stages path.now base ours theirs)
        (records state.new)) }
{
    state.remove_entries(|_place, it, _entry| it == path);
    push_side(state, path, Stage::Base, base)?;
    push_side(state, path, Stage::Ours, ours)?;
    push_side(state, path, Stage::Theirs, theirs)?;
    state.sort_entries()
}

/// Reads an index.
fn index_at(rt: &HostRuntime, alloc: Global, path: &str) -> anyhow::Result<State>
    ensures { IfOk result PathsInStorage }
{
    let (bytes, options) = (fs::read(rt, path)?, decode::Options::default());
    Ok(State::from_bytes(alloc, &bytes, FileTime::EPOCH, Kind::Sha1, options)?.0)
}

/// Returns the entry's values at a path that isn't in conflict.
fn side_in(state: &State, path: &[u8]) -> anyhow::Result<Side> {
    let entry = state.entry_by_path_and_stage(path, Stage::Unconflicted);
    let entry = entry.ok_or(anyhow::Error::msg("a side lacks the path"))?;
    let (mode, id, stat) = (entry.mode, entry.id, Stat::default());
    Ok(Side { mode, id, stat })
}

/// Prints the entries.
fn print<W: Write>(out: &mut W, state: &State) -> io::Result<()> {
    for entry in state.entries() {
        let (mode, stage) = (entry.mode.bits(), entry.stage_raw());
        write!(out, "{mode:06o} {} {stage}\t", entry.id)?;
        out.write_all(entry.path(state))?;
        out.write_all(b"\n")?;
    }
    out.flush()
}

/// Runs the example.
pub fn run(rt: &HostRuntime, words: &[&str]) -> anyhow::Result<()> {
    let alloc = rt.alloc();
    let &[ours, base, theirs, path] = words else {
        return Err(anyhow::Error::msg("usage: examples merge OURS BASE THEIRS PATH"));
    };
    let path = path.as_bytes();
    let mut state = index_at(rt, alloc, ours)?;
    let base = side_in(&index_at(rt, alloc, base)?, path)?;
    let ours = side_in(&state, path)?;
    let theirs = side_in(&index_at(rt, alloc, theirs)?, path)?;
    put_in_conflict(&mut state, path, base, ours, theirs)?;
    Ok(print(&mut BufWriter::new(alloc, io::writer(rt))?, &state)?)
}
