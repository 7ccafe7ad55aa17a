//! Tree objects, read from borrowed bytes.

ghost use Rattle.std.specs.Prelude.{◌≡◌, length};
ghost use Rattle.std.specs.Iterator.{at_most};
ghost use Rattle.std.specs.Option.{option_map};
ghost use Rattle.index_parts.specs.Mode.{mode_of_kind};
ghost use Rattle.index_parts.specs.TreeObjectSteps.{tree_mode_of, tree_entry_at};
ghost use Rattle.index_parts.specs.TreeObject.{YieldsEntry, is_tree_mode, kind_of_mode, kind_of_entries};
ghost use Rattle.index_parts.specs.TreeObject.{tree_entry_of};
ghost use Rattle.index_parts.specs.TreeObject.{unread_entries};

use crate::hash::{Kind, ObjectId};
use crate::read;
use thiserror::Error;

/// The type of a tree's entry.
#[derive(Clone, Copy, Debug, PartialEq, Eq, PartialOrd, Ord, Hash)]
pub enum EntryKind {
    /// A directory, which is another tree.
    Tree,
    /// A file.
    Blob,
    /// A file that its owner may run.
    BlobExecutable,
    /// A symbolic link.
    Link,
    /// Another repository's commit.
    Commit,
}

/// The mode of a tree's entry, with all of its 16 bits. Modes are ordered by number.
#[derive(Clone, Copy, Debug, PartialEq, Eq, PartialOrd, Ord, Hash)]
pub struct EntryMode(u16);

impl EntryMode {
    /// Returns the bits of the mode.
    pub fn value(&self) -> u16
        ensures { result ≡ self.now.0 }
    {
        self.0
    }

    /// Returns whether the entry is a directory.
    pub fn is_tree(&self) -> bool
        ensures { result ≡ is_tree_mode self.now.0 }
    {
        self.value() & 0o170000 == 0o040000
    }

    /// Returns the type of the entry. It depends on the bits of 0o170000, and for a file on the bit of 0o100, by which
    /// its owner may run it. An entry that is neither a directory, a link nor a file is a commit.
    pub fn kind(&self) -> EntryKind
        ensures { result ≡ kind_of_mode self.now.0 }
    {
        match self.value() & 0o170000 {
            0o040000 => EntryKind::Tree,
            0o120000 => EntryKind::Link,
            0o100000 if self.value() & 0o100 != 0 => EntryKind::BlobExecutable,
            0o100000 => EntryKind::Blob,
            _ => EntryKind::Commit,
        }
    }
}

/// Returns the mode that an entry of this type has.
impl From<EntryKind> for EntryMode {
    ghost from_gives = { λ kind mode. mode.0 ≡ mode_of_kind kind };

    fn from(kind: EntryKind) -> EntryMode {
        match kind {
            EntryKind::Tree => EntryMode(0o040000),
            EntryKind::Blob => EntryMode(0o100644),
            EntryKind::BlobExecutable => EntryMode(0o100755),
            EntryKind::Link => EntryMode(0o120000),
            EntryKind::Commit => EntryMode(0o160000),
        }
    }
}

/// An entry of a tree. Its name is borrowed from the bytes of the object.
#[derive(Clone, Copy, Debug, PartialEq, Eq)]
pub struct EntryRef<'a> {
    /// The mode.
    pub mode: EntryMode,
    /// The name within the tree: one byte or more, without NUL. Nothing else is checked.
    pub filename: &'a [u8],
    /// The id of the object with this name.
    pub oid: ObjectId,
}

/// The error for bytes of a tree object that begin with no entry.
#[derive(Clone, Copy, Debug, PartialEq, Eq, Error)]
#[error("the tree object is malformed: an entry is a mode in octal digits, a space, a name, \
     a NUL and an id")]
pub struct Malformed;

/// The entries of a tree object, in order, without a copy ("Pro Git", "Git Objects").
///
/// An entry is a mode in octal digits, with any number of leading zeros, a space, a name of one byte or more, a NUL and
/// an id. If bytes are left that begin with no such entry, or with a mode of more than 16 bits, the last item is
/// [`Malformed`].
#[derive(Clone, Copy, Debug)]
pub struct Entries<'a> {
    rest: &'a [u8],
    kind: Kind,
}

impl<'a> Entries<'a> {
    /// Returns the entries of a tree object's bytes. `object_hash` is the hash algorithm of its ids.
    pub fn new(data: &'a [u8], object_hash: Kind) -> Self
        ensures bytes { unread_entries result ≡ «data».now }
        ensures kind { kind_of_entries result ≡ object_hash }
    {
        Entries {
            rest: data,
            kind: object_hash,
        }
    }

    /// Returns the bytes after the last entry that was returned. After [`Malformed`] there are none.
    pub fn rest(&self) -> &'a [u8]
        ensures { result.now ≡ unread_entries self.now }
    {
        self.rest
    }
}

impl<'a> Iterator for Entries<'a> {
    type Item = Result<EntryRef<'a>, Malformed>;

    ghost next_gives = { λ s r t. (kind_of_entries t ≡ kind_of_entries s)
        × YieldsEntry (kind_of_entries s) (unread_entries s) r (unread_entries t) };

    ghost remaining = { λ s. at_most (length (unread_entries s)) };

    fn next(&mut self) -> Option<Result<EntryRef<'a>, Malformed>> {
        if self.rest.is_empty() {
            return None;
        }
        let Some((entry, rest)) = entry_of(self.kind, self.rest) else {
            self.rest = &[];
            return Some(Err(Malformed));
        };
        self.rest = rest;
        Some(Ok(entry))
    }
}

/// Returns the mode that octal digits encode, or None if it has more than 16 bits.
fn mode_of(text: &[u8]) -> Option<u16>
    ensures { result ≡ tree_mode_of text.now }
{
    let mode = read::octal(text)?;
    if mode < 0x10000 {
        return Some(mode as u16);
    }
    None
}

/// Returns the entry at the start of `bytes`, and the bytes after it. None if `bytes` begin with no entry.
#[tactic(auto, unfolding(crate::specs::TreeObjectSteps::tree_entry_at))]
fn entry_of(kind: Kind, bytes: &[u8]) -> Option<(EntryRef<'_>, &[u8])>
    ensures { option_map (λ x. (tree_entry_of x.0, x.1.now)) result ≡ tree_entry_at kind bytes.now }
{
    let (text, rest) = read::up_to(bytes, b' ')?;
    let mode = mode_of(text)?;
    let (filename, rest) = read::up_to(rest, 0)?;
    if filename.is_empty() {
        return None;
    }
    let (oid, rest) = read::id(rest, kind)?;
    let entry = EntryRef {
        mode: EntryMode(mode),
        filename,
        oid,
    };
    Some((entry, rest))
}
