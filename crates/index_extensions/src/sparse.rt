//! Writes the extension of an index with entries for complete directories (gitformat-index, "Sparse Directory
//! Entries").

ghost use Rattle.index_parts.specs.Puts.{Puts};
ghost use Rattle.index_extensions.specs.Encoding.{item_bytes, sparse_item};

use super::Signature;
use index_parts::hash::io::Out;
use std::io;

/// The signature of the extension, which has no content.
pub const SIGNATURE: Signature = *b"sdir";

/// Writes the extension, which has no content (gitformat-index, "Sparse Directory Entries"). It allocates no memory.
///
/// An error occurs only if the writer failed, which then took a prefix of the bytes.
pub fn write_to<W: Out>(out: &mut W) -> io::Result<()>
    ensures { Puts W.Out out.old out.new result (item_bytes sparse_item) }
{
    out.put(b"sdir\0\0\0\0")
}
