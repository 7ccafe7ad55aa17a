//! A part of a file.

ghost use Rattle.std.specs.Prelude.{OnOk};
ghost use Rattle.view_layout.specs.Piece.{Lays, one_piece, some_piece};

use index_extensions::Signature;
use std::alloc::AllocError;

/// What a part of a file is.
#[derive(Clone, Copy, Debug, PartialEq, Eq)]
pub enum What {
    /// The signature, the version and the number of entries.
    Header,
    /// An entry up to the end of its path. In version 4 the NUL after the path is included.
    Entry {
        /// The index of the entry, counted from 0.
        number: u32,
    },
    /// The bytes after an entry of version 2 or 3, which pad it to a multiple of eight.
    Padding,
    /// The signature of an extension, and its size.
    ExtensionHead {
        /// The four bytes of the signature.
        signature: Signature,
    },
    /// The content of an extension.
    ExtensionContent {
        /// The signature of the extension.
        signature: Signature,
    },
    /// The signature and the size of an extension whose size passes the end. Nothing follows.
    LeftOver,
    /// The digest of all bytes before it, or zeros.
    Trailer,
    /// All bytes from the first error on.
    Unread,
}

/// A part of a file: consecutive bytes.
#[derive(Clone, Copy, Debug, PartialEq, Eq)]
pub struct Part {
    /// The offset of the first byte, in bytes from the start of the file.
    pub offset: usize,
    /// The number of bytes.
    pub len: usize,
    /// What the bytes are.
    pub what: What,
}

/// Appends a part.
pub fn push_part(
    parts: &mut Vec<Part>,
    offset: usize,
    len: usize,
    what: What,
) -> Result<(), AllocError>
    ensures { OnOk result
        (Lays (one_piece what) offset len parts.old.items parts.new.items) }
{
    parts.push(Part { offset, len, what })?;
    Ok(())
}

/// Appends a part, unless it has no bytes.
pub fn push_some(
    parts: &mut Vec<Part>,
    offset: usize,
    len: usize,
    what: What,
) -> Result<(), AllocError>
    ensures { OnOk result
        (Lays (some_piece what) offset len parts.old.items parts.new.items) }
{
    if len != 0 {
        parts.push(Part { offset, len, what })?;
    }
    Ok(())
}
