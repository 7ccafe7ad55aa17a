//! Trees that are collected before they go to a caller's rooms.

ghost use Rattle.std.specs.Prelude.{◌≡◌, ◌++◌, ◌≤◌, ◌<◌, ◌^◌, [], Some, drop, length};
ghost use Rattle.capi_table.specs.Collecting.{collected, piece_rows, pieces_len};
ghost use Rattle.capi_table.specs.Putting.{PutsCollected, TreesRoomTest};
ghost use Rattle.capi_table.specs.Trees.{Objects};

use crate::row::padded_id;
use crate::trees::{Counts, Tree, Unmade};
use gix_index::hash::ObjectId;
use gix_index::write_trees::Sink;
use std::alloc::Global;

/// The number with which the sink rejects a tree if memory runs out.
const NO_MEMORY: u32 = 0;

/// A tree that is collected: its id, and how many bytes it has.
#[derive(Clone, Copy)]
pub(crate) struct Piece {
    id: ObjectId,
    len: usize,
}

/// The trees that are collected, and their concatenated bytes.
#[derive(Drop)]
pub(crate) struct Collected {
    pieces: Vec<Piece>,
    bytes: Vec<u8>,
}

impl Sink for Collected {
    ghost use Rattle.capi_table.specs.declared.collected.TheConstants.{NO_MEMORY};

    ghost stored = { λ c. collected c };

    ghost fault = { λ _. Some NO_MEMORY };

    fn put(&mut self, id: &ObjectId, bytes: &[u8]) -> Result<(), u32> {
        let piece = Piece {
            id: *id,
            len: bytes.len(),
        };
        let Ok(()) = self.pieces.push(piece) else {
            return Err(NO_MEMORY);
        };
        let Ok(()) = self.bytes.extend_from_slice(bytes) else {
            self.pieces.pop();
            return Err(NO_MEMORY);
        };
        Ok(())
    }
}

/// Returns whether one of the rooms has less than the trees need.
fn lacks_room(counts: &Counts, trees: &[Tree], bytes: &[u8]) -> bool
    ensures { TreesRoomTest counts.now trees.now bytes.now result }
{
    trees.len() < counts.trees || bytes.len() < counts.bytes
}

/// Fills in a row for each piece. The bytes of the pieces are concatenated.
fn fill_rows(pieces: &[Piece], trees: &mut [Tree])
    requires few { pieces_len pieces.now < 2 ^ 64 }
    requires fits { length pieces.now ≤ length trees.old }
    ensures { trees.new ≡ piece_rows 0 pieces.now ++ drop (length pieces.now) trees.old }
{
    let mut start = 0;
    for place in 0..pieces.len() {
        let piece = pieces[place];
        trees[place] = Tree {
            id: padded_id(&piece.id),
            start,
            len: piece.len,
        };
        start += piece.len;
    }
}

impl Collected {
    /// Returns a collection without trees.
    pub(crate) fn new(alloc: Global) -> Collected
        ensures { collected result ≡ Some [] }
    {
        Collected {
            pieces: Vec::new(alloc),
            bytes: Vec::new(alloc),
        }
    }

    /// Returns the number of trees, and the number of bytes that they have together.
    fn counts(&self) -> Counts
        ensures trees { result.trees ≡ length self.now.pieces.items }
        ensures bytes { result.bytes ≡ length self.now.bytes.items }
    {
        Counts {
            trees: self.pieces.len(),
            bytes: self.bytes.len(),
        }
    }

    /// Puts the trees into the rooms and returns their counts. If a room is too small, it returns `NoRoom` with the
    /// counts and leaves both rooms as they were.
    pub(crate) fn put_into(&self, trees: &mut [Tree], bytes: &mut [u8]) -> Result<Counts, Unmade>
        requires { (os : Objects) × (collected self.now ≡ Some os) }
        ensures { PutsCollected self.now trees.old trees.new bytes.old bytes.new result }
    {
        let counts = self.counts();
        if lacks_room(&counts, trees, bytes) {
            return Err(Unmade::NoRoom(counts));
        }
        fill_rows(&self.pieces, trees);
        bytes[..counts.bytes].copy_from_slice(&self.bytes);
        Ok(counts)
    }
}
