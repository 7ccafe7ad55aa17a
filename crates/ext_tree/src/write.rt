//! Writes a cache tree as an extension.

ghost use Rattle.std.specs.Prelude.{◌≡◌, ◌↔◌, ◌≤◌, ◌<◌, ◌^◌, ◌+◌, ◌++◌, length, take};
ghost use Rattle.std.specs.Prelude.{◌||◌, map};
ghost use Rattle.std.specs.List.{flat_map};
ghost use Rattle.index_parts.specs.Puts.{Puts};
ghost use Rattle.index_extensions.specs.Encoding.{item_bytes};
ghost use Rattle.index_parts.specs.Numbers.{within_32};
ghost use Rattle.ext_tree.specs.TreeImage.{tree_item};
ghost use Rattle.ext_tree.specs.GitOrder.{all_in_git_order, bytes_of_len, ordered_if};
ghost use Rattle.ext_tree.specs.Tree.{node_of, nodes_from};
ghost use Rattle.ext_tree.specs.TreeImage.{count_bytes, id_part, behind_name, node_head_bytes, node_bytes};
ghost use Rattle.ext_tree.specs.TreeImage.{nodes_bytes};
ghost use Rattle.ext_tree.specs.TreeWriting.{WritesTree, is_io, room_left};
ghost use Rattle.ext_tree.specs.declared.write.Error.TheVariants.{Io};
ghost use Rattle.ext_tree.specs.declared.Tree.TheViews.{out-Tree};

use super::git_order::{LONG_NAME, has_len, next_len};
use super::{SIGNATURE, Tree};
use index_extensions::head::item_head;
use index_parts::hash::io::Out;
use itoa::Buffer;
use std::io;
use thiserror::Error;

/// Why a cache tree was not written.
#[derive(Debug, Drop, Error)]
pub enum Error {
    /// The content has more than 2^32 - 1 bytes. No byte was written.
    #[error("the cached tree takes more than the 4294967295 bytes that an extension can have")]
    TooLarge,
    /// The writer failed. It took a prefix of the bytes.
    #[error("the cached tree was not written whole: {0}")]
    Io(io::Error),
}

impl From<io::Error> for Error {
    ghost from_gives = { λ e error. error ≡ Io e };

    fn from(e: io::Error) -> Error {
        Error::Io(e)
    }
}

/// Returns the number of entries as text, or `-1`.
fn count_text<'a>(count: Option<u32>, buffer: &'a mut Buffer) -> &'a [u8]
    ensures text { result.now ≡ count_bytes count }
    ensures short { length result.now ≤ 40 }
{
    match count {
        Some(n) => buffer.format(n).as_bytes(),
        None => b"-1",
    }
}

/// Returns the bytes of the id if the number of entries is known, and no bytes otherwise.
fn id_text(tree: &Tree) -> &[u8]
    ensures text { result.now ≡ id_part (out-Tree tree.now).num_entries (out-Tree tree.now).id }
    ensures short { length result.now ≤ 32 }
{
    match tree.num_entries {
        Some(_) => tree.id.as_bytes(),
        None => &[],
    }
}

/// The size in bytes of a buffer for the parts after a node's name: two numbers, an id, and three separators.
const BEHIND_NAME_LEN: usize = 128;

/// Copies a piece into the buffer at the index `place`, and returns the index after it.
fn copy_to(buffer: &mut [u8], place: usize, piece: &[u8]) -> usize
    requires { place + length piece.now ≤ length buffer.old }
    ensures end { result ≡ place + length piece.now }
    ensures bytes { take result buffer.new ≡ take place buffer.old ++ piece.now }
{
    let end = place + piece.len();
    buffer[place..end].copy_from_slice(piece);
    end
}

/// Collects the parts after a node's name in `buffer`, and returns their length in bytes.
fn gather_behind_name(tree: &Tree, buffer: &mut [u8]) -> usize
    requires { length buffer.old ≡ 128 }
    ensures len { result ≤ 128 }
    ensures bytes { take result buffer.new ≡ behind_name (out-Tree tree.now).id
        (out-Tree tree.now).num_entries (length (out-Tree tree.now).children.items) }
{
    let mut first = Buffer::new();
    let mut second = Buffer::new();
    let count = count_text(tree.num_entries, &mut first);
    let number = second.format(tree.children.len()).as_bytes();
    let end = copy_to(buffer, 0, b"\0");
    let end = copy_to(buffer, end, count);
    let end = copy_to(buffer, end, b" ");
    let end = copy_to(buffer, end, number);
    let end = copy_to(buffer, end, b"\n");
    copy_to(buffer, end, id_text(tree))
}

/// Returns a list of two pieces.
fn two<'a>(a: &'a [u8], b: &'a [u8]) -> [&'a [u8]; 2]
    ensures { flat_map (λ p. p.now) result ≡ a.now ++ b.now }
{
    [a, b]
}

/// Writes a node without its children.
#[tactic(auto, unfolding(crate::specs::TreeImage::node_head_bytes))]
fn put_node_head<W: Out>(tree: &Tree, out: &mut W) -> io::Result<()>
    ensures { Puts W.Out out.old out.new result
        (node_head_bytes (out-Tree tree.now).name.items (out-Tree tree.now).id
        (out-Tree tree.now).num_entries (length (out-Tree tree.now).children.items)) }
{
    let mut buffer = [0u8; BEHIND_NAME_LEN];
    let end = gather_behind_name(tree, &mut buffer);
    let (behind, _) = buffer.split_at(end);
    let pieces = two(tree.name.as_slice(), behind);
    out.put_each(&pieces)
}

/// Writes a node and everything below it in preorder. The children are in their own order, or in git's order.
#[cycle(nodes)]
fn put_node<W: Out>(tree: &Tree, in_git_order: bool, out: &mut W) -> io::Result<()>
    ensures { Puts W.Out out.old out.new result
        (node_bytes (ordered_if in_git_order (node_of tree.now))) }
{
    put_node_head(tree, out)?;
    if in_git_order {
        put_by_length(&tree.children, out)
    } else {
        put_nodes(&tree.children, None, out)
    }
}

/// Writes the nodes whose names have this length, and everything below them, in git's order. Without a length, it
/// writes all nodes in their own order.
#[cycle(nodes)]
fn put_nodes<W: Out>(trees: &[Tree], len: Option<usize>, out: &mut W) -> io::Result<()>
    ensures { Puts W.Out out.old out.new result
        (flat_map (λ t. bytes_of_len len (node_of t)) trees.now) }
{
    for tree in trees {
        if has_len(tree, len) {
            put_node(tree, len.is_some(), out)?;
        }
    }
    Ok(())
}

/// Writes several nodes and everything below them, in git's order.
#[cycle(nodes)]
fn put_by_length<W: Out>(trees: &[Tree], out: &mut W) -> io::Result<()>
    ensures { Puts W.Out out.old out.new result
        (nodes_bytes (all_in_git_order (nodes_from (map node_of trees.now)))) }
{
    let mut len = next_len(trees, 0);
    while len <= LONG_NAME {
        put_nodes(trees, Some(len), out)?;
        len = next_len(trees, len + 1);
    }
    Ok(())
}

/// Returns the length in bytes of a node without its children.
#[tactic(auto, using(crate::proofs::TreeLengths::length_head))]
fn node_head_len(tree: &Tree) -> u64
    ensures { result ≡ length
        (node_head_bytes (out-Tree tree.now).name.items (out-Tree tree.now).id
        (out-Tree tree.now).num_entries (length (out-Tree tree.now).children.items)) }
{
    let mut buffer = Buffer::new();
    let count = count_text(tree.num_entries, &mut buffer).len() as u64;
    let number = buffer.format(tree.children.len()).len() as u64;
    tree.name.as_slice().len() as u64 + count + number + id_text(tree).len() as u64 + 3
}

/// Returns the room that is left after a node and everything below it, or `None` if there isn't enough.
#[cycle(sizes)]
fn room_behind(tree: &Tree, room: u64) -> Option<u64>
    ensures { result ≡ room_left room (length (node_bytes (node_of tree.now))) }
{
    let len = node_head_len(tree);
    if room < len {
        return None;
    }
    room_behind_all(&tree.children, room - len)
}

/// Returns the room that is left after several nodes and everything below them, or `None` if there isn't enough.
#[cycle(sizes)]
fn room_behind_all(trees: &[Tree], room: u64) -> Option<u64>
    ensures { result ≡ room_left room (length (flat_map (λ t. node_bytes (node_of t)) trees.now)) }
{
    let mut left = room;
    for tree in trees {
        let Some(rest) = room_behind(tree, left) else {
            return None;
        };
        left = rest;
    }
    Some(left)
}

/// Writes the tree as an extension, as [`Tree::write_to`] does. The children are in their own order, or in git's order.
/// It allocates no memory.
///
/// `len` is the length of the content in bytes, as [`Tree::content_len`] returns it. An error occurs only if the writer
/// failed, which then took a prefix of the bytes.
///
/// For git's order, it passes over the children of a node once for each length that their names have.
pub fn put_item<W: Out>(tree: &Tree, in_git_order: bool, len: u32, out: &mut W) -> io::Result<()>
    requires { len ≡ length (node_bytes (ordered_if in_git_order (node_of tree.now))) }
    ensures { Puts W.Out out.old out.new result
        (item_bytes (tree_item (ordered_if in_git_order (node_of tree.now)))) }
{
    out.put(&item_head(SIGNATURE, len))?;
    put_node(tree, in_git_order, out)
}

impl Tree {
    /// Returns the length in bytes of the content of the extension, or `None` if it is more than 2^32 - 1. It allocates
    /// no memory.
    pub fn content_len(&self) -> Option<u32>
        ensures { result ≡ within_32 (length (node_bytes (node_of self.now))) }
    {
        let room = u64::from(u32::MAX);
        let left = room_behind(self, room)?;
        Some((room - left) as u32)
    }

    /// Writes the tree as an extension (gitformat-index, "Cache tree"). It allocates no memory, and its recursion is as
    /// deep as the tree.
    ///
    /// The nodes are written in preorder, the children of each in their own order. For a node without a count, -1 and
    /// no id are written.
    ///
    /// # Errors
    ///
    /// [`Error::TooLarge`] occurs before any byte is written, and leaves the writer unchanged. [`Error::Io`] occurs
    /// only if the writer failed, which then took a prefix of the bytes.
    pub fn write_to<W: Out>(&self, out: &mut W) -> Result<(), Error>
        ensures bytes { WritesTree W.taken W.hashed W.failed out.old out.new result
            (item_bytes (tree_item (node_of self.now))) }
        ensures loan { W.loan out.new ≡ W.loan out.old }
        ensures io { W.failed out.new ≡ (is_io result || W.failed out.old) }
        ensures too_large { (result ≡ Err Error.TooLarge)
            ↔ (2 ^ 32 ≤ length (node_bytes (node_of self.now))) }
    {
        let Some(len) = self.content_len() else {
            return Err(Error::TooLarge);
        };
        put_item(self, false, len, out)?;
        Ok(())
    }
}
