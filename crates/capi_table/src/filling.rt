//! Filling a caller's table: from bytes, one entry at a time without storing entries, or from entries in memory.

ghost use Rattle.std.specs.Prelude.{◌≡◌, ◌≤◌, ◌+◌, All, length};
ghost use Rattle.gix_index.specs.Contents.{Contents};
ghost use Rattle.gix_index.specs.Outlined.{Outlines};
ghost use Rattle.gix_index.specs.Outlined.Passed.{in_64_bits, paths_len};
ghost use Rattle.gix_index.specs.Record.{IsSized, records_in};
ghost use Rattle.gix_index.specs.Storable.{IsStorable};
ghost use Rattle.capi_table.specs.Filling.{FillsEntries, FillsOutline, HasEntries, with_path_at};
ghost use Rattle.capi_table.specs.Reading.{sizes_of};
ghost use Rattle.capi_table.specs.Table.{FillsRecords};

use crate::read::{Sizes, Unread, lacks_room, linked_id};
use crate::row::{Row, row_from};
use gix_index::decode::entry::{EntryReader, Pathless};
use gix_index::file::Outline;
use gix_index::hash::Kind;
use gix_index::{Entry, Version};

/// Writes a path at the position `place`: `shared` bytes of those that begin at the position `earlier`, and then the
/// tail.
fn put_path(paths: &mut [u8], earlier: usize, place: usize, shared: usize, tail: &[u8])
    requires before { earlier + shared ≤ place }
    requires room { place + (shared + length tail.now) ≤ length paths.old }
    ensures { paths.new ≡ with_path_at paths.old earlier place shared tail.now }
{
    let (before, behind) = paths.split_at_mut(place);
    behind[..shared].copy_from_slice(&before[earlier..earlier + shared]);
    behind[shared..shared + tail.len()].copy_from_slice(tail);
}

/// Fills in the row and the path of each of the first `count` entries of these bytes.
fn fill_entries(
    version: Version,
    kind: Kind,
    count: u32,
    bytes: &[u8],
    rows: &mut [Row],
    paths: &mut [u8],
)
    requires entries { HasEntries version kind count bytes.now paths.old }
    requires rows_fit { count ≤ length rows.old }
    ensures { FillsEntries version kind count bytes.now rows.old rows.new paths.old paths.new }
{
    let mut earlier = 0;
    let mut start = 0;
    let mut reader = EntryReader::new(version, kind, bytes);
    for place in 0..count as usize {
        let Some(lent) = reader.next() else {
            unreachable!()
        };
        let end = start + (lent.shared + lent.path.len());
        put_path(paths, earlier, start, lent.shared, lent.path);
        rows[place] = row_from(lent.entry, start, end - start);
        earlier = start;
        start = end;
    }
}

/// Returns the number of bytes that the paths of entries in a storage have together, or `None` if it exceeds 64 bits.
pub(crate) fn path_bytes_of(entries: &[Entry], storage: &[u8]) -> Option<usize>
    ensures { result ≡ in_64_bits (paths_len (records_in storage.now entries.now)) }
{
    let mut sum: usize = 0;
    for place in 0..entries.len() {
        let path = entries[place].path_in(storage);
        sum = sum.checked_add(path.len())?;
    }
    Some(sum)
}

/// Fills in the row and the path of each entry, with the paths concatenated. The entries' own paths are in a storage.
pub(crate) fn fill(entries: &[Entry], storage: &[u8], rows: &mut [Row], paths: &mut [u8])
    requires sized { All IsSized (records_in storage.now entries.now) }
    requires rows_fit { length entries.now ≤ length rows.old }
    requires paths_fit { paths_len (records_in storage.now entries.now) ≤ length paths.old }
    ensures { FillsRecords (records_in storage.now entries.now) rows.old rows.new paths.old
        paths.new }
{
    let mut start = 0;
    for place in 0..entries.len() {
        let entry = &entries[place];
        let path = entry.path_in(storage);
        put_path(paths, start, start, 0, path);
        let parts = Pathless {
            stat: entry.stat,
            id: entry.id,
            flags: entry.flags,
            mode: entry.mode,
        };
        rows[place] = row_from(parts, start, path.len());
        start += path.len();
    }
}

/// Returns what a table of an outline needs.
fn sizes_of_outline(outline: &Outline<'_>) -> Sizes
    ensures { (v : Contents) → Outlines v outline.now → result ≡ sizes_of v }
{
    Sizes {
        entries: outline.count as usize,
        path_bytes: outline.path_bytes,
        version: outline.version,
        link: linked_id(outline.extensions.link.as_ref()),
    }
}

/// Fills the entries of an outline into a table and returns its sizes. If there is no room, it returns
/// `Unread::NoRoom`.
pub(crate) fn table_of_outline(
    outline: &Outline<'_>,
    rows: &mut [Row],
    paths: &mut [u8],
) -> Result<Sizes, Unread>
    requires { (v : Contents) × Outlines v outline.now × IsStorable v }
    ensures { FillsOutline outline.now rows.old rows.new paths.old paths.new result }
{
    let sizes = sizes_of_outline(outline);
    if lacks_room(&sizes, rows, paths) {
        return Err(Unread::NoRoom(sizes));
    }
    let (version, kind) = (outline.version, outline.object_hash);
    fill_entries(version, kind, outline.count, outline.entries, rows, paths);
    Ok(sizes)
}
