//! Writes numbers, texts, and the head of an extension.

ghost use Rattle.std.specs.Prelude.{◌++◌, [], ◌∷◌};
ghost use Rattle.index_parts.specs.Numbers.{be32};
ghost use Rattle.index_parts.specs.Puts.{Puts};
ghost use Rattle.ext_bitmap.specs.BitmapImage.{be64};

use index_extensions::Signature;
use index_extensions::head::item_head;
use index_parts::hash::io::Out;
use std::io;

/// Writes a number in four bytes, big-endian.
pub fn put_number<W: Out>(n: u32, out: &mut W) -> io::Result<()>
    ensures { Puts W.Out out.old out.new result (be32 n) }
{
    out.put(&n.to_be_bytes())
}

/// Writes a number in eight bytes, big-endian.
pub fn put_word<W: Out>(word: u64, out: &mut W) -> io::Result<()>
    ensures { Puts W.Out out.old out.new result (be64 word) }
{
    out.put(&word.to_be_bytes())
}

/// Writes a text followed by a NUL.
pub fn put_text<W: Out>(text: &[u8], out: &mut W) -> io::Result<()>
    ensures { Puts W.Out out.old out.new result (text.now ++ 0 ∷ []) }
{
    out.put_each(&[text, b"\0"])
}

/// Writes the head of an extension: its signature, and the length of its content in bytes.
pub fn put_head<W: Out>(signature: Signature, len: u32, out: &mut W) -> io::Result<()>
    ensures { Puts W.Out out.old out.new result (signature ++ be32 len) }
{
    out.put(&item_head(signature, len))
}
