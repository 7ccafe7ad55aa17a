//! Small pieces that are written as one.

ghost use Rattle.std.specs.Prelude.{◌≡◌, ◌≤◌, [], Some, false, length, take};
ghost use Rattle.index_parts.specs.Gathered.{Gathered, cut_to};

use crate::hash::io::Out;
use std::io;
use std::io::ErrorKind;
use std::marker::Model;

/// The capacity of a block in bytes.
pub const BLOCK_LEN: usize = 4096;

/// An [`Out`] that collects the pieces that it takes, up to [`BLOCK_LEN`] bytes. They can be written to another `Out`
/// as a single piece. It allocates no memory.
#[derive(Drop)]
pub struct Block {
    bytes: [u8; BLOCK_LEN],
    len: usize,
    is_full: bool,
}

impl Model for Block {
    ghost Value = { Gathered };

    ghost view = { λ b. record { bytes = take b.len b.bytes; is_full = b.is_full } };

    ghost invariant = { λ b. b.len ≤ 4096 };
}

impl Block {
    /// Returns a block without bytes.
    pub fn new() -> Block
        ensures { result ≡ record { bytes = []; is_full = false } }
    {
        Block {
            bytes: [0; BLOCK_LEN],
            len: 0,
            is_full: false,
        }
    }

    /// Returns the number of bytes.
    pub fn len(&self) -> usize
        ensures { result ≡ length self.now.bytes }
    {
        self.as_slice().len()
    }

    /// Returns the bytes.
    pub fn as_slice(&self) -> &[u8]
        ensures { result.now ≡ self.now.bytes }
    {
        &self.bytes[..self.len]
    }

    /// Shortens the block to its first `len` bytes. It is then no longer marked failed.
    pub fn cut_to(&mut self, len: usize)
        requires { len ≤ length self.old.bytes }
        ensures { self.new ≡ cut_to self.old len }
    {
        self.len = len;
        self.is_full = false;
    }
}

/// A piece is taken completely. If there is no room for it, nothing of it is taken, and the error is
/// [`ErrorKind::WriteZero`]. The block has then failed until it is cut by [`Block::cut_to`].
impl Out for Block {
    ghost taken = { λ b. Some b.bytes };

    ghost failed = { λ b. b.is_full };

    fn put(&mut self, piece: &[u8]) -> io::Result<()> {
        if BLOCK_LEN - self.len < piece.len() {
            self.is_full = true;
            return Err(io::Error::new(ErrorKind::WriteZero, "the block has no room for the piece"));
        }
        let end = self.len + piece.len();
        self.bytes[self.len..end].copy_from_slice(piece);
        self.len = end;
        Ok(())
    }

    fn has_failed(&self) -> bool {
        self.is_full
    }
}
