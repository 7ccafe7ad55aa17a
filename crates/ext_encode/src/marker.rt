//! Writes the end marker after extensions (gitformat-index, "End of Index Entry").

ghost use Rattle.std.specs.Prelude.{◌≡◌, ◌≤◌, ◌<◌, ◌+◌, ◌++◌, take};
ghost use Rattle.index_parts.specs.Puts.{Puts};
ghost use Rattle.index_extensions.specs.Encoding.{heads_bytes, item_bytes, marker_item};
ghost use Rattle.ext_encode.specs.Listing.{head_if, listed_heads, sparse_head_len};

use crate::Lens;
use ext_small::{fs_monitor, resolve_undo};
use ext_tree as tree;
use ext_untracked as untracked;
use index_extensions::{Signature, end_of_index_entry, sparse};
use index_parts::hash::Kind;
use index_parts::hash::io::Out;
use std::io;

/// The maximum number of extensions before an end marker.
const MOST: usize = 5;

/// The signatures of extensions, and the lengths of their contents, in the order of the file.
#[derive(Clone, Copy)]
struct Heads {
    list: [(Signature, u32); MOST],
    count: usize,
}

impl Heads {
    /// Returns the list with one more extension, if there is one.
    fn with(self, signature: Signature, len: Option<u32>) -> Heads
        requires { self.count < 5 }
        ensures list { take result.count result.list
            ≡ take self.count self.list ++ head_if signature len }
        ensures count { result.count ≤ self.count + 1 }
    {
        let mut heads = self;
        if let Some(len) = len {
            heads.list[heads.count] = (signature, len);
            heads.count += 1;
        }
        heads
    }
}

/// Returns the content length of the mark of a sparse index, if the index is sparse.
fn sparse_head_len(is_sparse: bool) -> Option<u32>
    ensures { result ≡ sparse_head_len is_sparse }
{
    if is_sparse { Some(0) } else { None }
}

/// Returns the signatures and content lengths of all extensions.
fn heads_of(lens: Lens, is_sparse: bool) -> Heads
    ensures list { take result.count result.list ≡ listed_heads lens is_sparse }
    ensures count { result.count ≤ 5 }
{
    let none = Heads {
        list: [(*b"\0\0\0\0", 0); MOST],
        count: 0,
    };
    none.with(tree::SIGNATURE, lens.tree)
        .with(resolve_undo::SIGNATURE, lens.resolve_undo)
        .with(untracked::SIGNATURE, lens.untracked)
        .with(fs_monitor::SIGNATURE, lens.fs_monitor)
        .with(sparse::SIGNATURE, sparse_head_len(is_sparse))
}

/// Writes an end marker after extensions with these content lengths. It allocates no memory.
///
/// The extensions begin at `offset`, in bytes from the start of the file. If `is_sparse`, the mark of a sparse index is
/// one of them. An error occurs only if the writer failed, which then took a prefix of the bytes.
pub fn put_marker<W: Out>(
    lens: Lens,
    is_sparse: bool,
    kind: Kind,
    offset: u32,
    out: &mut W,
) -> io::Result<()>
    ensures written { Puts W.Out out.old out.new result
        (item_bytes (marker_item kind offset (heads_bytes (listed_heads lens is_sparse)))) }
{
    let heads = heads_of(lens, is_sparse);
    let (list, _) = heads.list.split_at(heads.count);
    end_of_index_entry::write_to(out, kind, offset, list)
}
