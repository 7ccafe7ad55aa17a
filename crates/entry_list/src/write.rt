//! Writing the header and the entries of a file.

mod delta;
mod entry;

ghost use Rattle.std.specs.Prelude.{◌≡◌, ◌+◌, ◌<◌, ◌≤◌, ◌^◌, ◌++◌, [], length, IfSome, IfNone};
ghost use Rattle.std.specs.Prelude.{IfOk, OnOk, OnErr};
ghost use Rattle.index_parts.specs.Gathered.{Gathers};
ghost use Rattle.index_parts.specs.Puts.{Puts};
ghost use Rattle.entry_list.specs.Counted.{counted_in};
ghost use Rattle.entry_list.specs.EntryImage.{chosen_version, entries_in, entry_in, header_bytes, version_by};
ghost use Rattle.entry_list.specs.EntryImage.{written};
ghost use Rattle.entry_list.specs.Header.{header_len};
ghost use Rattle.entry_list.specs.Record.{record_in, records_in};

use crate::sizes::HEADER_LEN;
use crate::{Entry, Version};
use bitflags::Flags as _;
use entry_fields::entry::Flags;
use index_parts::block::Block;
use index_parts::hash::io::Out;
use std::io;

/// The choice of the version that a file is written in.
#[derive(Clone, Copy, Debug, Default, PartialEq, Eq)]
pub enum VersionChoice {
    /// Version 3 if an entry has a second word of flags, even an entry that is left out. Otherwise version 2.
    #[default]
    Smallest,
    /// Version 4, in which each path is stored as its difference to the path before it. No path has a NUL.
    V4,
}

/// How the bytes of entries are counted before they are written. In versions 2 and 3 both ways give the same number.
#[derive(Clone, Copy)]
pub enum Precision {
    /// An upper bound: in version 4 as if no two paths began with the same bytes. Common prefixes are not searched for.
    Bound,
    /// The exact number. In version 4 each path is compared with the one before it.
    Exact,
}

/// The version, number and size of the entries in a file.
#[derive(Clone, Copy)]
pub struct Totals {
    /// The version of the file.
    pub version: Version,
    /// The number of entries that are written.
    pub count: u32,
    /// The number of bytes of the header and of the entries that are written: exact, or an upper bound.
    pub most: u32,
}

/// Returns the bytes of the header of a file of this version with `count` entries.
pub fn header(version: Version, count: u32) -> [u8; HEADER_LEN]
    ensures { result ≡ header_bytes version count }
{
    let [a, b, c, d] = (version as u32).to_be_bytes();
    let [e, f, g, h] = count.to_be_bytes();
    [b'D', b'I', b'R', b'C', a, b, c, d, e, f, g, h]
}

/// Appends an entry to a block, and returns the number of bytes that were written to `out`. If the block has no room
/// for the entry, the block's bytes are written first, and then the entry.
fn put_behind<W: Out>(
    entry: &Entry,
    version: Version,
    previous: &[u8],
    storage: &[u8],
    block: &mut Block,
    out: &mut W,
) -> io::Result<u64>
    requires small { length block.old.bytes
        + length (entry_in version previous.now (record_in storage.now entry.now)) < 2 ^ 32 }
    ensures gathered { OnOk result (Gathers W.Out out.old out.new block.new.bytes
        (block.old.bytes ++ entry_in version previous.now (record_in storage.now entry.now))) }
    ensures gone { IfOk result (λ gone. gone + length block.new.bytes
        ≡ length block.old.bytes
        + length (entry_in version previous.now (record_in storage.now entry.now))) }
    ensures fault { OnErr result (Puts W.Out out.old out.new result
        (block.old.bytes ++ entry_in version previous.now (record_in storage.now entry.now))) }
{
    let len = block.len();
    if entry.put(version, previous, storage, block).is_ok() {
        return Ok(0);
    }
    block.cut_to(len);
    out.put(block.as_slice())?;
    block.cut_to(0);
    entry.put(version, previous, storage, out)?;
    Ok(len as u64 + entry.counted_len(Precision::Exact, version, previous, storage))
}

/// Writes the entries that are not left out, in order, as a file of this version has them. Returns the offset of their
/// end in a file in which they follow the header. Their bytes are written in blocks.
pub fn put_entries<W: Out>(
    version: Version,
    entries: &[Entry],
    storage: &[u8],
    out: &mut W,
) -> io::Result<u32>
    requires small { header_len + length
        (entries_in version [] (written (records_in storage.now entries.now))) < 2 ^ 32 }
    ensures puts { Puts W.Out out.old out.new result
        (entries_in version [] (written (records_in storage.now entries.now))) }
    ensures end { IfOk result
        (λ end. end ≡ header_len + length
        (entries_in version [] (written (records_in storage.now entries.now)))) }
{
    let mut block = Block::new();
    let mut previous: &[u8] = &[];
    let mut gone = HEADER_LEN as u64;
    for entry in entries {
        if entry.is_removed() {
            continue;
        }
        gone += put_behind(entry, version, previous, storage, &mut block, out)?;
        previous = entry.path_in(storage);
    }
    out.put(block.as_slice())?;
    Ok((gone + block.len() as u64) as u32)
}

/// Returns the version of a file. `is_extended` is whether an entry has a second word of flags.
fn version_by(choice: VersionChoice, is_extended: bool) -> Version
    ensures { result ≡ version_by choice is_extended }
{
    match choice {
        VersionChoice::V4 => Version::V4,
        VersionChoice::Smallest if is_extended => Version::V3,
        VersionChoice::Smallest => Version::V2,
    }
}

/// Returns the version, number and size of the entries in a file, after one pass over them. `precision` is how their
/// bytes are counted. The result is None if that number, with the header, doesn't fit in 32 bits.
pub fn totals_of(
    choice: VersionChoice,
    precision: Precision,
    entries: &[Entry],
    storage: &[u8],
) -> Option<Totals>
    requires few { length entries.now < 2 ^ 32 }
    ensures version { IfSome result
        (λ t. t.version ≡ chosen_version choice (records_in storage.now entries.now)) }
    ensures count { IfSome result
        (λ t. t.count ≡ length (written (records_in storage.now entries.now))) }
    ensures most { IfSome result
        (λ t. t.most ≡ header_len + counted_in precision t.version []
        (written (records_in storage.now entries.now))) }
    ensures none { IfNone result
        (2 ^ 32 ≤ header_len + counted_in precision
        (chosen_version choice (records_in storage.now entries.now)) []
        (written (records_in storage.now entries.now))) }
{
    // Versions 2 and 3 differ only in their number.
    let counted = version_by(choice, false);
    let mut is_extended = false;
    let mut count = 0;
    let mut most = HEADER_LEN as u64;
    let mut last: &[u8] = &[];
    for entry in entries {
        is_extended |= entry.flags.contains(Flags::EXTENDED);
        if !entry.is_removed() {
            count += 1;
            most += entry.counted_len(precision, counted, last, storage);
            if most > u64::from(u32::MAX) {
                return None;
            }
            last = entry.path_in(storage);
        }
    }
    Some(Totals {
        version: version_by(choice, is_extended),
        count,
        most: most as u32,
    })
}
