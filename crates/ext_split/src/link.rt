//! A split index's link to its shared index (gitformat-index, "Split index").

pub mod decode;
mod dissolve;

ghost use Rattle.std.specs.Prelude.{◌≡◌};
ghost use Rattle.ext_split.specs.Link.{link_of, pair_of};

pub use dissolve::SplitIndex;
use ext_bitmap::ewah;
use index_extensions::Signature;
use index_parts::hash::ObjectId;
use std::alloc::AllocError;

/// The signature of the extension.
pub const SIGNATURE: Signature = *b"link";

/// The entries of the shared index that a split index changes, as bitmaps of their positions there.
#[derive(Debug, Drop)]
pub struct Bitmaps {
    /// The entries that are left out.
    pub delete: ewah::Vec,
    /// The entries that the split index's own first entries replace, one after another.
    pub replace: ewah::Vec,
}

/// Returns clones of both bitmaps. An error means that memory for their words couldn't be allocated.
impl Clone for Bitmaps {
    ghost is_clone = { λ a b. pair_of b ≡ pair_of a };

    fn clone(&self) -> Result<Bitmaps, AllocError> {
        Ok(Bitmaps {
            delete: self.delete.clone()?,
            replace: self.replace.clone()?,
        })
    }
}

/// The link of a split index to a shared index, which has most of its entries.
#[derive(Debug, Drop)]
pub struct Link {
    /// The id at the end of the shared index's file, which is also part of that file's name. It is null if there is no
    /// shared index.
    pub shared_index_checksum: ObjectId,
    /// The entries that are deleted and replaced there.
    pub bitmaps: Option<Bitmaps>,
}

/// Returns a link with this id, and with clones of the bitmaps if there are any. An error means that memory for them
/// couldn't be allocated.
impl Clone for Link {
    ghost is_clone = { λ a b. link_of b ≡ link_of a };

    fn clone(&self) -> Result<Link, AllocError> {
        Ok(Link {
            shared_index_checksum: self.shared_index_checksum,
            bitmaps: self.bitmaps.clone()?,
        })
    }
}
