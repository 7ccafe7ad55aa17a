//! Decodes the offset table, which has the offsets at which blocks of entries begin (gitformat-index, "Index Entry
//! Offset Table").

ghost use Rattle.std.specs.Prelude.{◌<◌, List, [], length, Some, IfOk, IfErr, IfSome, IfNone};
ghost use Rattle.std.specs.Option.{option_map};
ghost use Rattle.index_extensions.specs.ExtensionValue.{IsRead};
ghost use Rattle.ext_small.specs.OffsetTable.{HasTable, IsEntryBlock, AreEntryBlocks, IsTable, IsOffsetTable};

use index_extensions::{Iter, Signature};
use index_parts::hash::Kind;
use index_parts::read;
use std::alloc::{AllocError, Global};

/// The signature of the extension.
pub const SIGNATURE: Signature = *b"IEOT";

/// The only known version.
const VERSION: u32 = 1;

/// The number of bytes of a block: its offset and its number of entries, four bytes each.
const ENTRY_BLOCK_LEN: usize = 8;

/// A block of entries.
#[derive(Clone, Copy, Debug, PartialEq, Eq)]
pub struct Offset {
    /// The offset of its first entry, in bytes from the beginning of the file.
    pub from_beginning_of_file: u32,
    /// The number of its entries.
    pub num_entries: u32,
}

/// Decodes the blocks in the content of the extension. It returns `None` if the version isn't 1, or if the rest isn't
/// one or more complete blocks.
///
/// Memory is allocated once, for the blocks that the bytes contain, and only if they are complete. An error means that
/// it couldn't be allocated.
pub fn decode(alloc: Global, data: &[u8]) -> Result<Option<Vec<Offset>>, AllocError>
    ensures read { IfOk result
        (λ found. IsRead IsTable «data».now (option_map (λ v. v.items) found)) }
    ensures memory { IfErr result (λ _. HasTable «data».now) }
{
    let Some((version, rest)) = read::u32(data) else {
        return Ok(None);
    };
    if version != VERSION || rest.is_empty() {
        return Ok(None);
    }
    entry_blocks_of(alloc, rest)
}

/// Returns the blocks of the first offset table in `extensions`, the bytes from the first extension to the end of the
/// file, with the trailer.
///
/// It returns `None` if there is no table, if the first one is malformed, or if there are fewer bytes than a trailer
/// has. An error means that memory for a valid first table couldn't be allocated.
pub fn find(
    alloc: Global,
    extensions: &[u8],
    object_hash: Kind,
) -> Result<Option<Vec<Offset>>, AllocError>
    ensures found { IfOk result
        (λ found. IsOffsetTable object_hash extensions.now (option_map (λ v. v.items) found)) }
    ensures memory { IfErr result (λ _. (blocks : List Offset)
        × IsOffsetTable object_hash extensions.now (Some blocks)) }
{
    let Some(mut walk) = Iter::new_without_checksum(extensions, object_hash) else {
        return Ok(None);
    };
    while let Some(item) = walk.next() {
        let (signature, content) = item;
        if signature == SIGNATURE {
            return decode(alloc, content);
        }
    }
    Ok(None)
}

/// Returns the blocks that the bytes consist of, or `None` if a part of a block is left.
fn entry_blocks_of(alloc: Global, bytes: &[u8]) -> Result<Option<Vec<Offset>>, AllocError>
    ensures read { IfOk result
        (λ found. IsRead (λ all blocks. AreEntryBlocks all blocks []) bytes.now
        (option_map (λ v. v.items) found)) }
    ensures memory { IfErr result (λ _. (blocks : List Offset)
        × AreEntryBlocks bytes.now blocks []) }
{
    if bytes.len() % ENTRY_BLOCK_LEN != 0 {
        return Ok(None);
    }
    let mut offsets = Vec::with_capacity(alloc, bytes.len() / ENTRY_BLOCK_LEN)?;
    let mut rest = bytes;
    while let Some((offset, after)) = entry_block_of(rest) {
        offsets.push(offset)?;
        rest = after;
    }
    Ok(Some(offsets))
}

/// Returns the block at the start of bytes, and the bytes after it, or `None` if there are fewer bytes than a block
/// has.
fn entry_block_of(bytes: &[u8]) -> Option<(Offset, &[u8])>
    ensures found { IfSome result (λ x. IsEntryBlock bytes.now x.0 x.1.now) }
    ensures none { IfNone result (length bytes.now < 8) }
{
    let (from_beginning_of_file, rest) = read::u32(bytes)?;
    let (num_entries, rest) = read::u32(rest)?;
    Some((
        Offset {
            from_beginning_of_file,
            num_entries,
        },
        rest,
    ))
}
