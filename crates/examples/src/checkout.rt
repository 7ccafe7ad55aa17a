//! `examples checkout INDEX DIRECTORY`: prints the paths that a checkout of one directory writes.
//!
//! INDEX is an index of SHA-1. Each path below the directory is printed on a line. Plain paths are printed as `git
//! ls-files -- DIRECTORY/` prints them. For example: `out/examples checkout ../../.git/index docs`.

ghost use Rattle.std.specs.Prelude.{◌≡◌, IfOk, filter};
ghost use Rattle.gix_index.specs.Closest.{is_below};
ghost use Rattle.gix_index.specs.Order.{IsOrderedByPath};
ghost use Rattle.gix_index.specs.Record.{records_in};
ghost use Rattle.gix_index.specs.State.{records, storage_of};

use gix_index::entry::FileTime;
use gix_index::hash::Kind;
use gix_index::{Entry, File, State, decode};
use std::alloc::{AllocError, Global};
use std::fs;
use std::io::{self, BufWriter, Write};
use std::path::PathBuf;

/// Returns all entries below a directory, at any depth, in the order of the index. `directory` has no slash at its end.
/// An entry for the directory itself isn't below it.
fn entries_below<'a>(
    alloc: Global,
    state: &'a State,
    directory: &[u8],
) -> Result<&'a [Entry], AllocError>
    ensures { IsOrderedByPath (records state.now) → IfOk result
        (λ entries. records_in (storage_of state.now) entries.now
        ≡ filter (is_below directory.now) (records state.now)) }
{
    let mut prefix = Vec::from_slice(alloc, directory)?;
    prefix.push(b'/')?;
    Ok(state.prefixed_entries(&prefix).unwrap_or(&[]))
}

/// Prints the paths below a directory.
fn print_below<W: Write>(
    alloc: Global,
    out: &mut W,
    state: &State,
    directory: &str,
) -> anyhow::Result<()> {
    for entry in entries_below(alloc, state, directory.as_bytes())? {
        out.write_all(entry.path(state))?;
        out.write_all(b"\n")?;
    }
    Ok(())
}

/// Runs the example.
pub fn run(rt: &HostRuntime, words: &[&str]) -> anyhow::Result<()> {
    let alloc = rt.alloc();
    let &[index, directory] = words else {
        return Err(anyhow::Error::msg("usage: examples checkout INDEX DIRECTORY"));
    };
    let file = File::decode(
        alloc,
        &fs::read(rt, index)?,
        PathBuf::from_str(alloc, index)?,
        Kind::Sha1,
        false,
        FileTime::EPOCH,
        decode::Options::default(),
    )?;
    if !file.is_ordered_by_path() {
        return Err(anyhow::Error::msg("the entries aren't in order"));
    }
    let mut out = BufWriter::new(alloc, io::writer(rt))?;
    print_below(alloc, &mut out, &file, directory)?;
    out.flush()?;
    Ok(())
}
