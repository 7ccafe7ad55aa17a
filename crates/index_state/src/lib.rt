//! The state of a git index in memory: its entries and extensions, and everything of an index except its entries.
#![tactic(auto)]

ghost use Rattle.std.specs.Prelude.{◌≡◌, ◌↔◌, ◌<◌, length, slice_get, IsTrue};

use entry_fields::entry::FileTime;
use entry_list::paths::paths_without_nul;
use entry_list::slice::EntrySlice;
use entry_list::{Entry, PathBacking, PathStorageRef, Version, are_placed};
use index_model::Parts;
use index_parts::hash::Kind;
use std::alloc::AllocError;

mod access;
mod apply;
mod change;
mod debug;
mod decode;
mod dissolve;
mod init;
pub mod outline;
mod trees;
pub mod verify;
mod write;

/// A git index in memory: entries in the order of the file, and the extensions.
#[derive(Drop)]
pub struct State {
    parts: Parts,
}

/// Returns a state with equal entries in the same order, the same storage of paths, and everything else equal. It uses
/// as much memory as its source. The error is an allocation failure.
impl Clone for State {
    ghost use Rattle.index_state.specs.Edits.{IsUnchanged};

    ghost is_clone = { λ a b. IsUnchanged a b };

    fn clone(&self) -> Result<State, AllocError> {
        Ok(State {
            parts: Parts {
                object_hash: self.parts.object_hash,
                timestamp: self.parts.timestamp,
                version: self.parts.version,
                entries: self.parts.entries.clone()?,
                path_backing: self.parts.path_backing.clone()?,
                extensions: self.parts.extensions.clone()?,
                extensions_fit: self.parts.extensions_fit,
            },
        })
    }
}

impl State {
    ghost use Rattle.entry_list.specs.EntryImage.{LackNul};
    ghost use Rattle.index_state.specs.State.{PathsInStorage, contents, entries_of, records, storage_of};

    /// Returns the version of the file that was read.
    pub fn version(&self) -> Version
        ensures { result ≡ (contents self.now).version }
    {
        self.parts.version
    }

    /// Returns the time at which the file that was read had last been written, as given by the caller.
    pub fn timestamp(&self) -> FileTime
        ensures { result ≡ (contents self.now).time }
    {
        self.parts.timestamp
    }

    /// Returns the hash algorithm of the ids.
    pub fn object_hash(&self) -> Kind
        ensures { result ≡ (contents self.now).kind }
    {
        self.parts.object_hash
    }

    /// Returns the entries, in the order of the file.
    pub fn entries(&self) -> &[Entry]
        ensures { result.now ≡ entries_of self.now }
    {
        self.parts.entries.as_slice()
    }

    /// Returns the entry at an index, counted from 0.
    pub fn entry(&self, idx: usize) -> &Entry
        requires { idx < length (entries_of self.now) }
        ensures { slice_get (entries_of self.now) idx ≡ Some result.now }
    {
        &self.parts.entries[idx]
    }

    /// Returns the storage of the entries' paths, for [`Entry::path_in`].
    pub fn path_backing(&self) -> PathStorageRef<'_>
        ensures { result.now ≡ storage_of self.now }
    {
        self.parts.path_backing.as_slice()
    }

    /// Borrows the entries with their paths as one list.
    pub(crate) fn slice(&self) -> EntrySlice<'_>
        ensures { result ≡ records self.now }
    {
        EntrySlice::new(&self.parts.entries, &self.parts.path_backing)
    }

    /// Returns whether, when the file was read, an entry represented a complete directory, or the file was marked so
    /// (gitformat-index, "Sparse Directory Entries").
    pub fn is_sparse(&self) -> bool
        ensures { result ≡ (contents self.now).extensions.sparse }
    {
        self.parts.extensions.is_sparse
    }

    /// Returns whether each entry's path is inside the storage. Appending to the storage then leaves all paths
    /// unchanged. It is true without entries.
    pub fn paths_in_storage(&self) -> bool
        ensures { IsTrue result ↔ PathsInStorage self.now }
    {
        are_placed(&self.parts.entries, self.parts.path_backing.len())
    }

    /// Returns whether no path contains a NUL, except those of entries that are marked `REMOVE`. Version 4 can store
    /// such entries.
    pub fn paths_without_nul(&self) -> bool
        ensures { IsTrue result ↔ LackNul (contents self.now).records }
    {
        paths_without_nul(&self.parts.entries, &self.parts.path_backing)
    }
}

/// Borrows the storage of the state's paths.
impl PathBacking for State {
    ghost use Rattle.index_state.specs.State.{storage_of};

    ghost paths = { storage_of };

    fn backing(&self) -> PathStorageRef<'_> {
        self.path_backing()
    }
}
