//! Reads the directory blocks.

ghost use Rattle.std.specs.Prelude.{◌≡◌, ◌<◌, ◌≤◌, ◌++◌, ℕ, List, map, length, IfOk, IfErr, IfSome, IfNone};
ghost use Rattle.std.specs.Option.{option_map};
ghost use Rattle.bstr.specs.Owned.{bstring_bytes};
ghost use Rattle.ext_untracked.specs.Blocks.{Block, HasBlockHead, IsBlock, block_depth, directory_value};
ghost use Rattle.ext_untracked.specs.Blocks.{preorder_directories};
ghost use Rattle.ext_untracked.specs.CacheSteps.{is_allowed, block_head_at, lent_block_head, names_at, start_at};
ghost use Rattle.ext_untracked.specs.CacheSteps.{own_start};
ghost use Rattle.ext_untracked.specs.BitmapSteps.{changed_directory, with_subs};

use super::Directory;
use bstr::BString;
use index_parts::read;
use index_parts::read::are_within;
use std::alloc::{AllocError, Global};

/// The head of a block.
#[derive(Clone, Copy)]
struct BlockHead<'a> {
    untracked: u64,
    subs: u64,
    name: &'a [u8],
}

/// The parts of a block before its nested blocks.
#[derive(Drop)]
struct Start {
    name: BString,
    untracked: Vec<BString>,
    subs: u64,
}

/// The number of bytes that an untracked name counts for in the limit.
const NAME_SIZE: u64 = 24;

/// The number of bytes that the index of a directory counts for in the limit.
const PLACE_SIZE: u64 = 8;

/// Returns whether `left` bytes, and the limit, have room for what a head declares.
fn is_allowed(limit: Option<usize>, head: &BlockHead<'_>, left: usize) -> bool
    ensures { result ≡ is_allowed limit (lent_block_head head.now) left }
{
    let half = left as u64 / 2;
    head.untracked <= half
        && head.subs <= half
        && are_within(limit, NAME_SIZE, head.untracked)
        && are_within(limit, PLACE_SIZE, head.subs)
}

/// Returns the head at the start of bytes, and the bytes after it.
#[tactic(auto, unfolding(crate::specs::CacheSteps::block_head_at))]
fn block_head_of(limit: Option<usize>, bytes: &[u8]) -> Option<(BlockHead<'_>, &[u8])>
    ensures { option_map (λ x. (lent_block_head x.0, x.1.now)) result
        ≡ block_head_at limit bytes.now }
{
    let (untracked, rest) = read::offset(bytes)?;
    let (subs, rest) = read::offset(rest)?;
    let (name, rest) = read::up_to(rest, 0)?;
    let head = BlockHead {
        untracked,
        subs,
        name,
    };
    if is_allowed(limit, &head, rest.len()) {
        return Some((head, rest));
    }
    None
}

/// Returns `count` names, and the bytes after them.
fn names_of(
    alloc: Global,
    count: u64,
    bytes: &[u8],
) -> Result<Option<(Vec<BString>, &[u8])>, AllocError>
    ensures { IfOk result (λ found. option_map (λ x. (map bstring_bytes x.0.items, x.1.now)) found
        ≡ names_at count bytes.now) }
{
    let mut names = Vec::new(alloc);
    let mut rest = bytes;
    for _i in 0..count {
        let Some((name, after)) = read::up_to(rest, 0) else {
            return Ok(None);
        };
        names.push(BString::from_slice(alloc, name)?)?;
        rest = after;
    }
    Ok(Some((names, rest)))
}

/// Returns the block at the start of bytes without its nested blocks, and the bytes from those on.
#[tactic(auto, unfolding(crate::specs::CacheSteps::start_at))]
fn start_of(
    alloc: Global,
    limit: Option<usize>,
    bytes: &[u8],
) -> Result<Option<(Start, &[u8])>, AllocError>
    ensures found { IfOk result (λ found. option_map (λ x. (own_start x.0, x.1.now)) found
        ≡ start_at limit bytes.now) }
    ensures memory { IfErr result (λ _. HasBlockHead limit bytes.now) }
{
    let Some((head, rest)) = block_head_of(limit, bytes) else {
        return Ok(None);
    };
    let Some((untracked, rest)) = names_of(alloc, head.untracked, rest)? else {
        return Ok(None);
    };
    let start = Start {
        name: BString::from_slice(alloc, head.name)?,
        untracked,
        subs: head.subs,
    };
    Ok(Some((start, rest)))
}

/// Sets the indices of the subdirectories of the directory at the index `place`.
fn set_subs(directories: &mut Vec<Directory>, place: usize, subs: Vec<usize>)
    requires { place < length directories.old.items }
    ensures { map directory_value directories.new.items ≡ changed_directory (with_subs subs.items)
        place (map directory_value directories.old.items) }
{
    let directory = &mut directories[place];
    directory.sub_directories = subs;
}

/// Reads the block at the start of bytes, with at most `levels` levels below it, and returns the bytes after it. Its
/// directories are appended to `directories`.
pub(super) fn read_block<'a>(
    alloc: Global,
    limit: Option<usize>,
    levels: u32,
    bytes: &'a [u8],
    directories: &mut Vec<Directory>,
) -> Result<Option<&'a [u8]>, AllocError>
    ensures some { IfOk result
        (λ found. IfSome found (λ rest. (b : Block) × IsBlock limit bytes.now b rest.now
        × (block_depth b ≤ levels)
        × (map directory_value directories.new.items ≡ map directory_value directories.old.items ++
        preorder_directories (length directories.old.items) b))) }
    ensures none { IfOk result
        (λ found. IfNone found ((b : Block) (rest : List ℕ) → IsBlock limit bytes.now b rest
        → block_depth b ≤ levels → ⊥)) }
    ensures memory { IfErr result (λ _. HasBlockHead limit bytes.now) }
{
    let Some((start, tail)) = start_of(alloc, limit, bytes)? else {
        return Ok(None);
    };
    let place = directories.len();
    directories.push(Directory {
        name: start.name,
        untracked_entries: start.untracked,
        sub_directories: Vec::new(alloc),
        stat: None,
        exclude_file_oid: None,
        check_only: false,
    })?;
    let mut subs = Vec::new(alloc);
    let mut rest = tail;
    for _i in 0..start.subs {
        if levels == 0 {
            return Ok(None);
        }
        subs.push(directories.len())?;
        let Some(after) = read_block(alloc, limit, levels - 1, rest, directories)? else {
            return Ok(None);
        };
        rest = after;
    }
    set_subs(directories, place, subs);
    Ok(Some(rest))
}
