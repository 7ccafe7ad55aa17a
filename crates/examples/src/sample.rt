//! `examples sample INDEX PATH`: the sample of the README at the top.
//!
//! INDEX is an index of SHA-1. The program prints the id that is staged at the path, or `none`, and the number of bytes
//! of the index written again.

use gix_index::entry::{FileTime, Stage};
use gix_index::hash::io::Plain;
use gix_index::hash::{Kind, ObjectId};
use gix_index::{File, decode, write};
use std::alloc::Global;
use std::fs;
use std::path::PathBuf;

/// Returns the id that an index has staged at a path, if any, and the bytes of the index written again.
fn id_and_bytes(
    alloc: Global,
    bytes: &[u8],
    path: &[u8],
) -> anyhow::Result<(Option<ObjectId>, Vec<u8>)> {
    let place = PathBuf::from_str(alloc, ".git/index")?;
    let (time, options) = (FileTime::EPOCH, decode::Options::default());
    let file = File::decode(alloc, bytes, place, Kind::Sha1, false, time, options)?;
    let entry = file.entry_by_path_and_stage(path, Stage::Unconflicted);
    let mut out = Plain::new(Vec::new(alloc));
    file.write_to(&mut out, write::Options::default())?;
    Ok((entry.map(|entry| entry.id), out.inner))
}

/// Runs the example.
pub fn run(rt: &HostRuntime, words: &[&str]) -> anyhow::Result<()> {
    let &[index, path] = words else {
        return Err(anyhow::Error::msg("usage: examples sample INDEX PATH"));
    };
    let bytes = fs::read(rt, index)?;
    let (id, written) = id_and_bytes(rt.alloc(), &bytes, path.as_bytes())?;
    match id {
        Some(id) => println!(rt; "{id}")?,
        None => println!(rt; "none")?,
    }
    println!(rt; "{} bytes", written.len())?;
    Ok(())
}
