//! Decodes the offset table and the end marker of a file without validating them (gitformat-index, "Index Entry Offset
//! Table" and "End of Index Entry").

ghost use Rattle.std.specs.Prelude.{◌≡◌, List, ℕ, IfOk, None};
ghost use Rattle.std.specs.Option.{option_map};
ghost use Rattle.index_extensions.specs.ExtensionValue.{IsRead, IsValue, content_named, option_or};
ghost use Rattle.ext_small.specs.OffsetTable.{IsTable};
ghost use Rattle.index_extensions.specs.Walk.{IsWalk, Item, unread};
ghost use Rattle.ext_small.specs.Marks.{AreMarks, HasMarkBytes, HasExtensions, IsEndMark};

use crate::index_entry_offset_table::{self, Offset};
use index_extensions::{Iter, Signature, end_of_index_entry};
use index_parts::hash::{Kind, ObjectId};
use index_parts::util::from_be_u32;
use std::alloc::{AllocError, Global};

/// The number of bytes of the offset in an end marker.
const OFFSET_LEN: usize = 4;

/// The value of an end marker, correct or not.
#[derive(Clone, Copy, Debug, PartialEq, Eq)]
pub struct EndMark {
    /// The offset at which the extensions begin, in bytes from the beginning of the file.
    pub offset: u32,
    /// The digest of their signatures and sizes.
    pub digest: ObjectId,
}

/// The values of a file's offset table and of its end marker.
#[derive(Drop)]
pub struct Marks {
    /// The blocks of the first offset table. `None` if there is none or it is malformed.
    pub table: Option<Vec<Offset>>,
    /// The value of the last end marker. `None` if there is none, or its content isn't an offset with a digest.
    pub end: Option<EndMark>,
}

/// The contents of an offset table and of an end marker.
#[derive(Clone, Copy)]
struct MarkBytes<'a> {
    table: Option<&'a [u8]>,
    end: Option<&'a [u8]>,
}

/// Returns `content` if there is one, and `other` otherwise.
fn or_other<'a>(content: Option<&'a [u8]>, other: Option<&'a [u8]>) -> Option<&'a [u8]>
    ensures { option_map (λ b. b.now) result
        ≡ option_or (option_map (λ b. b.now) content.entry) (option_map (λ b. b.now) other.entry) }
{
    match content {
        Some(content) => Some(content),
        None => other,
    }
}

/// Returns the content of an extension if it has the wanted signature.
fn content_of<'a>(wanted: Signature, signature: Signature, content: &'a [u8]) -> Option<&'a [u8]>
    ensures { (size : List ℕ) → option_map (λ b. b.now) result ≡ content_named wanted
        (record { signature = signature; size = size; content = content.now }) }
{
    if signature != wanted {
        return None;
    }
    Some(content)
}

/// Returns the contents of the first offset table and of the last end marker among extensions.
fn mark_bytes_in(mut walk: Iter<'_>) -> MarkBytes<'_>
    ensures { (items : List Item) × (tail : List ℕ) × IsWalk (unread walk.entry) items tail
        × HasMarkBytes items result }
{
    let mut table = None;
    let mut end = None;
    while let Some(item) = walk.next() {
        let (signature, content) = item;
        let own = content_of(index_entry_offset_table::SIGNATURE, signature, content);
        table = or_other(table, own);
        let own = content_of(end_of_index_entry::SIGNATURE, signature, content);
        end = or_other(own, end);
    }
    MarkBytes { table, end }
}

/// Returns the contents of the first offset table and of the last end marker at the end of a file.
fn mark_bytes_of(kind: Kind, ending: &[u8]) -> MarkBytes<'_>
    ensures { (items : List Item) × HasExtensions kind ending.now items
        × HasMarkBytes items result }
{
    match Iter::new_without_checksum(ending, kind) {
        Some(walk) => mark_bytes_in(walk),
        None => MarkBytes {
            table: None,
            end: None,
        },
    }
}

/// Returns the blocks that the content of an offset table encodes.
fn table_of(alloc: Global, content: Option<&[u8]>) -> Result<Option<Vec<Offset>>, AllocError>
    ensures { IfOk result (λ found. IsValue IsTable (option_map (λ b. b.now) content.entry)
        (option_map (λ v. v.items) found)) }
{
    match content {
        Some(content) => index_entry_offset_table::decode(alloc, content),
        None => Ok(None),
    }
}

/// Returns the end marker that a content encodes, which is an offset, a digest and nothing else.
fn end_mark(kind: Kind, content: &[u8]) -> Option<EndMark>
    ensures { IsRead (IsEndMark kind) content.now result }
{
    if content.len() != OFFSET_LEN + kind.len_in_bytes() {
        return None;
    }
    let (offset, digest) = content.split_at(OFFSET_LEN);
    Some(EndMark {
        offset: from_be_u32(offset),
        digest: ObjectId::of_kind(kind, digest),
    })
}

/// Returns the end marker that a content encodes, if there is a content and it encodes one.
fn end_of(kind: Kind, content: Option<&[u8]>) -> Option<EndMark>
    ensures { IsValue (IsEndMark kind) (option_map (λ b. b.now) content.entry) result }
{
    match content {
        Some(content) => end_mark(kind, content),
        None => None,
    }
}

/// Returns the values of a file's offset table and end marker (gitformat-index, "Index Entry Offset Table" and "End of
/// Index Entry"). Neither is compared with the file.
///
/// `ending` has the bytes of the file after its entries. Of several tables the first is decoded, which is the one that
/// [`index_entry_offset_table::find`] finds. Of several markers the last is decoded.
///
/// Memory is allocated only for the blocks of the table. An error means that it couldn't be allocated.
pub fn marks_of(alloc: Global, kind: Kind, ending: &[u8]) -> Result<Marks, AllocError>
    ensures { IfOk result (λ marks. AreMarks kind ending.now marks) }
{
    let contents = mark_bytes_of(kind, ending);
    Ok(Marks {
        table: table_of(alloc, contents.table)?,
        end: end_of(kind, contents.end),
    })
}
