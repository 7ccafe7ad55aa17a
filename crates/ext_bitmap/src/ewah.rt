//! Bitmaps of runs, in git's EWAH form (git's bitmap-format document, "Serialization format for an EWAH bitmap").

ghost use Rattle.std.specs.Prelude.{◌≡◌};
ghost use Rattle.ext_bitmap.specs.Ascending.{Ascends};
ghost use Rattle.ext_bitmap.specs.Bitmap.{bitmap};
ghost use Rattle.ext_bitmap.specs.Bits.{ListPlaces};
ghost use Rattle.ext_bitmap.specs.UnpackingSteps.{items_left};

use std::alloc::AllocError;
use std::vec::Vec as Words;

mod iter;
mod reading;

pub use iter::{Malformed, Positions, Run};
pub use reading::{Error, decode};

/// The compressed form of a bitmap. [`decode`] returns one.
#[derive(Debug, Drop)]
pub struct Vec {
    num_bits: u32,
    words: Words<u64>,
}

/// Returns a bitmap with the same number of bits and the same words.
///
/// An error means that memory for the words couldn't be allocated.
impl Clone for Vec {
    ghost is_clone = { λ a b. bitmap b ≡ bitmap a };

    fn clone(&self) -> Result<Vec, AllocError> {
        Ok(Vec {
            num_bits: self.num_bits,
            words: self.words.clone()?,
        })
    }
}

impl Vec {
    /// Returns the number of bits that the bitmap declares. Its words may encode more or fewer.
    pub fn num_bits(&self) -> u32
        ensures { result ≡ (bitmap self.now).num_bits }
    {
        self.num_bits
    }

    /// Returns the words of the compressed form: run words, each followed by the literal words that it counts.
    pub fn words(&self) -> &[u64]
        ensures { result.now ≡ (bitmap self.now).words }
    {
        &self.words
    }

    /// Returns an iterator over the positions of the set bits, counted from 0 and ascending.
    ///
    /// A position may be at or above the number of bits. The iterator decodes words only as it reaches them.
    ///
    /// [`Malformed`] is the last item if the iterator meets one of these:
    ///
    /// - A run word lacks some of its literal words. The positions of its run come first, and the error then replaces
    ///   all its literal words.
    /// - A set bit has a position of more than 64 bits.
    pub fn positions(&self) -> Positions<'_>
        ensures places { ListPlaces (items_left result) (bitmap self.now).words }
        ensures ascending { Ascends 0 (items_left result) }
    {
        Positions::new(&self.words)
    }
}
