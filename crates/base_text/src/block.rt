//! Output of text in blocks.

ghost use Rattle.index_parts.specs.Puts.{Puts};
ghost use Rattle.base_text.specs.Blocks.{PutsFull};

use index_parts::hash::io::Out;
use std::io;

/// The length of text in bytes from which a buffer is written.
pub const BLOCK_LEN: usize = 65536;

/// The capacity of a buffer above [`BLOCK_LEN`], in bytes. A line that passes the block's end fits unless it is longer.
pub const SPARE_LEN: usize = 8192;

/// Writes all of `text` to `out`. An error is that of `out`, which has then taken a prefix of `text` and is marked
/// failed.
pub fn put_text<W: Out>(text: &[u8], out: &mut W) -> io::Result<()>
    ensures { Puts W.Out out.old out.new result text.now }
{
    out.put(text)
}

/// Writes the text to `out` and empties the buffer, if the text has [`BLOCK_LEN`] bytes or more. Otherwise it does
/// nothing.
///
/// An error is that of `out`, which has then taken a prefix of the text and is marked failed.
pub fn put_block<W: Out>(text: &mut Vec<u8>, out: &mut W) -> io::Result<()>
    ensures { PutsFull W.Out out.old out.new result text.old.items text.new.items }
{
    if text.len() >= BLOCK_LEN {
        put_text(text.as_slice(), out)?;
        text.clear();
    }
    Ok(())
}
