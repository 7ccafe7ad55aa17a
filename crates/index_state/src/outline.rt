//! Decodes an index from the bytes of its file without storing its entries: they are only counted.

ghost use Rattle.std.specs.Prelude.{◌≡◌, IfErr, IfOk};
ghost use Rattle.index_state.specs.Outlines.{IsFaultBy, IsOutlineBehind, OutlineIdsAreOf, marked};
ghost use Rattle.index_decode.specs.ReadParts.{IsAnswerBehind};

use entry_decode::entries::Read;
use entry_fields::entry::FileTime;
use entry_list::Version;
use entry_list::list::EntryList;
use file_windows::passed::pass_entries;
use index_decode::decode::{ReadAs, read_ending};
use index_model::decode;
use index_model::extension::Outcome;
use index_parts::hash::{Kind, ObjectId};
use std::alloc::Global;

/// An index without its entries.
#[derive(Drop)]
pub struct Outline<'a> {
    /// The hash algorithm of the index's ids.
    pub object_hash: Kind,
    /// The time at which the file was last written, as given by the caller.
    pub timestamp: FileTime,
    /// The version of the file.
    pub version: Version,
    /// The extensions.
    pub extensions: Outcome,
    /// Whether the extensions describe these entries only, and not those of a shared index too.
    pub extensions_fit: bool,
    /// The number of entries.
    pub count: u32,
    /// The total length of the paths in bytes.
    pub path_bytes: usize,
    /// The bytes from the first entry on.
    pub entries: &'a [u8],
    /// The id at the end of the bytes, or `None` if it is null.
    pub checksum: Option<ObjectId>,
}

/// Returns the extensions, marked as those of a sparse index if `sparse` is set.
fn with_sparse_mark(mut extensions: Outcome, sparse: bool) -> Outcome
    ensures { result ≡ marked extensions sparse }
{
    extensions.is_sparse |= sparse;
    extensions
}

/// Returns the outline of `count` entries at the start of the bytes, and of the extensions and the trailer after them.
pub fn outline_behind_header(
    alloc: Global,
    read_as: ReadAs,
    count: u32,
    bytes: &[u8],
) -> Result<Outline<'_>, decode::Error>
    ensures outlined { IfOk result (IsOutlineBehind read_as count bytes.now) }
    ensures fault { IfErr result (IsFaultBy (IsAnswerBehind read_as count bytes.now)) }
    ensures extension_ids { IfOk result (OutlineIdsAreOf read_as.object_hash) }
{
    let passed = match pass_entries(read_as.version, read_as.object_hash, count, bytes) {
        Ok(passed) => passed,
        Err(index) => return Err(decode::Error::Entry { index }),
    };
    let Some(path_bytes) = passed.path_bytes else {
        return Err(decode::Error::Memory);
    };
    let no_entries = Read {
        list: EntryList::new(alloc),
        sparse: false,
        rest: passed.rest,
    };
    let (parts, checksum) = read_ending(alloc, no_entries, read_as)?;
    Ok(Outline {
        object_hash: parts.object_hash,
        timestamp: parts.timestamp,
        version: parts.version,
        extensions: with_sparse_mark(parts.extensions, passed.sparse),
        extensions_fit: parts.extensions_fit,
        count,
        path_bytes,
        entries: bytes,
        checksum,
    })
}
