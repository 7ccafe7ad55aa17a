//! The entries of a git index: their encoding in a file, their order, sorting and removal.
//!
//! The functions take entries as a slice, and the storage of their paths as bytes.
#![tactic(auto)]

ghost use Rattle.std.specs.Prelude.{◌≡◌, ◌↔◌, ℕ, List, length, All, IsTrue};

use entry_fields::entry::{Flags, Mode, Stage, StageRaw, Stat};
use index_parts::hash::ObjectId;
use path_range::PathRange;
use std::cmp::Ordering;
use std::ops::Range;

pub mod list;
pub mod order;
pub mod path_range;
pub mod paths;
pub mod remove;
pub mod sizes;
pub mod slice;
pub mod sort;
pub mod write;

/// The version of a file's format (gitformat-index, "The Git index file has the following format").
/// Ordered by its number.
#[derive(Clone, Copy, Debug, PartialEq, Eq, PartialOrd, Ord, Hash)]
pub enum Version {
    /// Entries and extensions.
    V2 = 2,
    /// An entry may have a second word of flags.
    V3 = 3,
    /// Each path is stored as its difference to the path before it.
    V4 = 4,
}

/// The bytes of all paths, one after another.
pub type PathStorage = Vec<u8>;

/// The bytes of all paths, one after another, borrowed.
pub type PathStorageRef<'a> = &'a [u8];

/// A type that the storage of its entries' paths can be borrowed from: a state, or a file that holds one.
pub trait PathBacking {
    ghost paths: { Self → List ℕ };

    /// Returns the storage of the paths, as [`Entry::path_in`] takes it.
    fn backing(&self) -> PathStorageRef<'_>
        ensures { result.now ≡ paths self.now };
}

/// An entry of the index: a staged file, link, submodule or, in a sparse index, directory.
///
/// Its path is in the storage of the state that the entry is from. An entry that is moved into another state keeps its
/// range in the storage. Its path there may be another one or none.
#[derive(Clone, Debug, PartialEq, Eq, Drop)]
pub struct Entry {
    /// The stat data of the file, as returned by the file system.
    pub stat: Stat,
    /// The object that holds the contents.
    pub id: ObjectId,
    /// The flags of the entry, including its stage.
    pub flags: Flags,
    /// The type of the file.
    pub mode: Mode,
    path: PathRange,
}

impl Entry {
    ghost use Rattle.std.specs.Cmp.{IsTotalOrder};
    ghost use Rattle.std.specs.declared.cmp.Ordering.TheVariants.{Equal};
    ghost use Rattle.entry_list.specs.Order.{IsSameKey, path_cmp, record_cmp};
    ghost use Rattle.entry_list.specs.PathRange.{range_end, range_start};
    ghost use Rattle.entry_list.specs.Record.{IsPlaced, record_in};
    ghost use Rattle.entry_fields.specs.Flags.{stage_number, stage_of};

    /// Returns whether the path is inside a storage of `len` bytes.
    fn is_placed(&self, len: usize) -> bool
        ensures { IsTrue result ↔ IsPlaced len self.now }
    {
        self.path.end() <= len
    }

    /// Returns the entry's path, relative to the top of the work tree. `state` is the state that the entry is from.
    pub fn path<'a, S: PathBacking>(&self, state: &'a S) -> &'a [u8]
        ensures { result.now ≡ (record_in (S.paths state.now) self.now).path }
    {
        self.path_in(state.backing())
    }

    /// Returns the entry's path in this storage, which is that of the state that the entry is from. If the storage ends
    /// before the path does, it returns the part of the path that is there.
    pub fn path_in<'a>(&self, backing: PathStorageRef<'a>) -> &'a [u8]
        ensures { result.now ≡ (record_in backing.now self.now).path }
    {
        if self.is_placed(backing.len()) {
            return &backing[self.path.start()..self.path.end()];
        }
        self.cut_path(backing)
    }

    /// Returns the part of a path that is in a storage that ends before the path does. (It is a function of its own, so
    /// that searches jump over its code.)
    #[cold]
    #[inline(never)]
    fn cut_path<'a>(&self, backing: PathStorageRef<'a>) -> &'a [u8]
        requires { IsPlaced (length backing.now) self.now → ⊥ }
        ensures { result.now ≡ (record_in backing.now self.now).path }
    {
        &backing[self.path.start().min(backing.len())..]
    }

    /// Returns the range of the path in the storage of the state that the entry is from, in bytes from its start.
    /// [`Entry::path_in`] returns these bytes. So a caller who copies the complete storage has all paths.
    pub fn path_range(&self) -> Range<usize>
        ensures start { result.start ≡ range_start self.now.path }
        ensures end { result.end ≡ range_end self.now.path }
    {
        self.path.start()..self.path.end()
    }

    /// Returns how this entry compares with another one of the same state: by path, and at the same path by the number
    /// of the stage. The result is `Equal` exactly if both agree.
    pub fn cmp<S: PathBacking>(&self, other: &Entry, state: &S) -> Ordering
        ensures order { result ≡ record_cmp (record_in (S.paths state.now) self.now)
            (record_in (S.paths state.now) other.now) }
        ensures equal { (result ≡ Equal) ↔ IsSameKey (record_in (S.paths state.now) self.now)
            (record_in (S.paths state.now) other.now) }
        ensures total { IsTotalOrder record_cmp }
    {
        self.compare_in(other, state.backing())
    }

    /// Returns how this entry compares with another one whose path is in the same storage: by path, and at the same
    /// path by the number of the stage. The result is `Equal` exactly if both agree.
    fn compare_in(&self, other: &Entry, backing: &[u8]) -> Ordering
        ensures order { result ≡ record_cmp (record_in backing.now self.now)
            (record_in backing.now other.now) }
        ensures equal { (result ≡ Equal) ↔ IsSameKey (record_in backing.now self.now)
            (record_in backing.now other.now) }
    {
        Entry::cmp_filepaths(self.path_in(backing), other.path_in(backing)).then(
            self.stage_raw().cmp(&other.stage_raw()),
        )
    }

    /// Returns how a path compares with another one, byte by byte. The first bytes that differ decide, as unsigned
    /// numbers. A path is less than the longer paths that begin with it. The result is `Equal` exactly if the paths are
    /// equal.
    pub fn cmp_filepaths(a: &[u8], b: &[u8]) -> Ordering
        ensures order { result ≡ path_cmp a.now b.now }
        ensures equal { (result ≡ Equal) ↔ (a.now ≡ b.now) }
        ensures total { IsTotalOrder path_cmp }
    {
        a.cmp(b)
    }

    /// Returns the side of a merge that the entry is from.
    pub fn stage(&self) -> Stage
        ensures { result ≡ stage_of self.now.flags.0 }
    {
        self.flags.stage()
    }

    /// Returns the stage as a number, 0 to 3.
    pub fn stage_raw(&self) -> StageRaw
        ensures { result ≡ stage_number self.now.flags.0 }
    {
        self.flags.stage_raw()
    }
}

ghost use Rattle.entry_list.specs.Record.{IsPlaced, made_entry};

/// The parts of an entry without its path.
#[derive(Clone, Copy)]
pub struct Pathless {
    /// The stat data of the file, as returned by the file system.
    pub stat: Stat,
    /// The object that holds the contents.
    pub id: ObjectId,
    /// The flags of the entry, including its stage.
    pub flags: Flags,
    /// The type of the file.
    pub mode: Mode,
}

/// Returns an entry of these parts, whose path is this range of the storage that it is made for.
pub(crate) fn make_entry(entry: Pathless, path: PathRange) -> Entry
    ensures { result ≡ made_entry entry path }
{
    Entry {
        stat: entry.stat,
        id: entry.id,
        flags: entry.flags,
        mode: entry.mode,
        path,
    }
}

/// Returns whether each entry's path is inside a storage of `len` bytes. It is true if there are no entries.
pub fn are_placed(entries: &[Entry], len: usize) -> bool
    ensures { IsTrue result ↔ All (IsPlaced len) entries.now }
{
    entries.iter().all(|entry| entry.is_placed(len))
}
