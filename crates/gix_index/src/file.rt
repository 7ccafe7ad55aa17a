//! An index with the path of its file and the checksum at the end of the file.

mod at;
mod image;
pub mod init;
pub mod lock;
mod outline;
mod split;
mod unfollowed;
pub mod verify;
pub mod write;

ghost use Rattle.std.specs.Prelude.{◌≡◌, None};
ghost use Rattle.std.specs.Borrow.{sem};
ghost use Rattle.std.specs.Path.{path_bytes, path_buf_bytes};
ghost use Rattle.gix_index.specs.File.{state_of, path_of, checksum_of, IsSameFile, LendsState};

pub use at::shared_path;
use entry_list::{PathBacking, PathStorageRef};
pub use file_place::fault::{OneLine, PathError};
pub use file_place::folder;
pub use file_place::system::System;
pub use file_place::whole::bytes_at;
pub use file_windows::ReadOptions;
use index_parts::hash::ObjectId;
use index_state::State;
pub use outline::Outline;
pub use split::take_followed_link;
use std::alloc::AllocError;
use std::fmt;
use std::ops::{Deref, DerefMut};
use std::path::{Path, PathBuf};
pub use unfollowed::Unfollowed;

/// An index that was read from a file or is to be written to one. Its [`State`] is borrowed by `Deref`.
#[derive(Drop)]
pub struct File {
    state: State,
    path: PathBuf,
    checksum: Option<ObjectId>,
}

/// Clones the state, the path and the checksum. Nothing is changed on the disk.
///
/// The error is an allocation failure, for the state or the path.
impl Clone for File {
    ghost is_clone = { λ a b. IsSameFile a b };

    fn clone(&self) -> Result<File, AllocError> {
        Ok(File {
            state: self.state.clone()?,
            path: self.path.clone()?,
            checksum: self.checksum,
        })
    }
}

/// Writes a line with the path and the checksum, then the lines of the state.
impl fmt::Debug for File {
    fn fmt<W: fmt::Write>(&self, f: &mut fmt::Formatter<W>) -> fmt::Result {
        let path = self.path.as_path();
        match self.checksum {
            Some(id) => writeln!(f, "{:?}, checksum {id}", path.as_str())?,
            None => writeln!(f, "{:?}, no checksum", path.as_str())?,
        }
        write!(f, "{:?}", self.state)
    }
}

impl File {
    /// Returns an index that is to be written to `path`. It has no checksum until it is written.
    pub fn from_state(state: State, path: PathBuf) -> File
        ensures state { state_of result ≡ state }
        ensures path { path_of result ≡ path_buf_bytes path }
        ensures checksum { checksum_of result ≡ None }
    {
        File {
            state,
            path,
            checksum: None,
        }
    }

    /// Returns the state and the path.
    pub fn into_parts(self) -> (State, PathBuf)
        ensures state { result.0 ≡ state_of self }
        ensures path { path_buf_bytes result.1 ≡ path_of self }
    {
        let File {
            state,
            path,
            checksum: _,
        } = self;
        (state, path)
    }

    /// Returns the path of the index's file, which may not exist yet.
    pub fn path(&self) -> Path<'_>
        ensures { path_bytes result ≡ path_of self.now }
    {
        self.path.as_path()
    }

    /// Sets the path to which the index is to be written. Nothing is moved on the disk. State and checksum are
    /// unchanged.
    pub fn set_path(&mut self, path: PathBuf)
        ensures path { path_of self.new ≡ path_buf_bytes path }
        ensures state { state_of self.new ≡ state_of self.old }
        ensures checksum { checksum_of self.new ≡ checksum_of self.old }
    {
        self.path = path;
    }

    /// Returns the checksum that was at the end of the file when it was last read or written. It is the digest of all
    /// bytes before it (gitformat-index, "Hash checksum").
    ///
    /// `None` if there was no file yet, or if the checksum was null.
    pub fn checksum(&self) -> Option<ObjectId>
        ensures { result ≡ checksum_of self.now }
    {
        self.checksum
    }
}

impl Deref for File {
    type Target = State;

    ghost deref_gives = { λ file state. state ≡ state_of file };

    fn deref(&self) -> &State {
        &self.state
    }
}

/// Borrows the state mutably. What is written through the borrow becomes the file's state. Path and checksum are
/// unchanged.
impl DerefMut for File {
    ghost deref_mut_gives = { λ file state. state ≡ state_of file };

    fn deref_mut(&mut self) -> &mut State
        ensures* writes_back { sem 𝓛 (LendsState self.entry result) }
        ensures shows { result.now ≡ state_of self.old }
    {
        &mut self.state
    }
}

impl From<File> for State {
    ghost from_gives = { λ file state. state ≡ state_of file };

    fn from(file: File) -> State {
        file.into_parts().0
    }
}

/// Borrows the storage of the paths of the file's state.
impl PathBacking for File {
    ghost use Rattle.index_state.specs.State.{storage_of};

    ghost paths = { λ file. storage_of (state_of file) };

    fn backing(&self) -> PathStorageRef<'_> {
        self.state.path_backing()
    }
}
