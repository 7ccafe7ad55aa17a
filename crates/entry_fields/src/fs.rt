//! The metadata of a file, as a caller fills it in.

ghost use Rattle.std.specs.Prelude.{◌≡◌, ◌&&◌};
ghost use Rattle.entry_fields.specs.ModeChange.{is_file_kind, is_directory_kind, is_symlink_kind};

use crate::entry::FileTime;

mod from_metadata;

/// The type of a file at a path of the work tree.
#[derive(Clone, Copy, Debug, PartialEq, Eq, Hash)]
pub enum FileKind {
    /// A file.
    File,
    /// A directory.
    Directory,
    /// A symbolic link.
    Symlink,
    /// Anything else, for example a socket.
    Other,
}

/// The metadata of a file, without following links.
#[derive(Clone, Copy, Debug, PartialEq, Eq)]
pub struct Metadata {
    /// The type of the file.
    pub kind: FileKind,
    /// Whether its owner has the bit for execution.
    pub owner_executable: bool,
    /// The time of the last change of its content, if the system reports it.
    pub modified: Option<FileTime>,
    /// The time of its creation or of the last change of its metadata, if the system reports it.
    pub created: Option<FileTime>,
    /// Its size in bytes.
    pub len: u64,
    /// Its device.
    pub dev: u64,
    /// Its inode.
    pub ino: u64,
    /// Its owner.
    pub uid: u32,
    /// Its owner's group.
    pub gid: u32,
}

impl Metadata {
    /// Returns whether it is a directory.
    pub fn is_dir(&self) -> bool
        ensures { result ≡ is_directory_kind self.now.kind }
    {
        match self.kind {
            FileKind::Directory => true,
            FileKind::File => false,
            FileKind::Symlink => false,
            FileKind::Other => false,
        }
    }

    /// Returns whether it is a file.
    pub fn is_file(&self) -> bool
        ensures { result ≡ is_file_kind self.now.kind }
    {
        match self.kind {
            FileKind::File => true,
            FileKind::Directory => false,
            FileKind::Symlink => false,
            FileKind::Other => false,
        }
    }

    /// Returns whether it is a symbolic link.
    pub fn is_symlink(&self) -> bool
        ensures { result ≡ is_symlink_kind self.now.kind }
    {
        match self.kind {
            FileKind::Symlink => true,
            FileKind::File => false,
            FileKind::Directory => false,
            FileKind::Other => false,
        }
    }

    /// Returns whether it is a file that its owner may run.
    pub fn is_executable(&self) -> bool
        ensures { result ≡ is_file_kind self.now.kind && self.now.owner_executable }
    {
        self.is_file() && self.owner_executable
    }

    /// Returns the time of the last change of its content, if the system reports it.
    pub fn modified(&self) -> Option<FileTime>
        ensures { result ≡ self.now.modified }
    {
        self.modified
    }

    /// Returns the time of its creation or of the last change of its metadata, if the system reports it.
    pub fn created(&self) -> Option<FileTime>
        ensures { result ≡ self.now.created }
    {
        self.created
    }

    /// Returns its size in bytes.
    pub fn len(&self) -> u64
        ensures { result ≡ self.now.len }
    {
        self.len
    }

    /// Returns its device.
    pub fn dev(&self) -> u64
        ensures { result ≡ self.now.dev }
    {
        self.dev
    }

    /// Returns its inode.
    pub fn ino(&self) -> u64
        ensures { result ≡ self.now.ino }
    {
        self.ino
    }

    /// Returns its owner.
    pub fn uid(&self) -> u32
        ensures { result ≡ self.now.uid }
    {
        self.uid
    }

    /// Returns its owner's group.
    pub fn gid(&self) -> u32
        ensures { result ≡ self.now.gid }
    {
        self.gid
    }
}
