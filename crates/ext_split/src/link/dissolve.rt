//! Replaces a link by the entries of the index that it links to (gitformat-index, "Split index").

ghost use Rattle.std.specs.Prelude.{Result};
ghost use Rattle.ext_split.specs.Link.{LinkValue, link_of};
ghost use Rattle.ext_split.specs.declared.link.decode.Error.{Error};

use super::Link;
use super::decode::Error;
use std::alloc::Global;

/// An index in memory into which [`Link::dissolve_into`] can merge the shared index of its link.
pub trait SplitIndex: Sized {
    // The effect on the split index of the link's value and the shared index: its value before, its value after, and
    // the result.
    ghost dissolves: { LinkValue → Self → Self → Self → Result (Unit {0}) Error → Type 0 };

    /// Merges the shared index into this one according to the link.
    fn dissolve(&mut self, link: Link, shared: Self) -> Result<(), Error>
        ensures { dissolves (link_of link) shared self.old self.new result };
}

impl Link {
    /// Merges the shared index into the split one that has this link, or had it. The link and the shared index are
    /// consumed.
    ///
    /// Without bitmaps, the split index doesn't change. With bitmaps, its new entries are made as follows:
    ///
    /// 1. The shared entry at each position of the bitmap of replaced entries, in turn, takes everything but the path
    ///    from the split index's next entry.
    /// 2. The split index's other entries are appended.
    /// 3. The entries at the positions of the bitmap of deleted entries, counted over this longer list, are removed. So
    ///    are those marked `REMOVE`.
    /// 4. The rest is sorted by path, then stage. Entries that are equal in both keep their order.
    ///
    /// The hash algorithm, time, version and extensions of the split index don't change. Both indexes should have the
    /// same hash algorithm.
    ///
    /// # Errors
    ///
    /// [`Error::Corrupt`] names the first of these errors:
    ///
    /// - The shared index has a link of its own.
    /// - A position has no entry, or an entry that can't be replaced.
    /// - A bitmap is malformed, which is reported after its valid positions.
    ///
    /// [`Error::Memory`] occurs if memory for the appended entries or for the sort couldn't be allocated. After an
    /// error the split index is unchanged.
    pub fn dissolve_into<S: SplitIndex>(
        self,
        _alloc: Global,
        split: &mut S,
        shared: S,
    ) -> Result<(), Error>
        ensures { S.dissolves (link_of self) shared split.old split.new result }
    {
        split.dissolve(self, shared)
    }
}
