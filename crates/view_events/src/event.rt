//! Events, which printers turn into text one at a time: the structure, and the values in it.

use entry_list::Entry;
use ext_bitmap::ranges::Range;
use ext_small::index_entry_offset_table::Offset;
use ext_small::resolve_undo::Stage;
use ext_untracked::{Directory, OidStat};
use index_parts::hash::ObjectId;

/// A field. Each printer has a table of names for fields.
#[derive(Clone, Copy)]
pub enum Key {
    // the index
    Version,
    Checksum,
    IsSparse,
    Entries,
    Tree,
    Link,
    ResolveUndo,
    Untracked,
    FsMonitor,
    HadOffsetTable,
    OffsetTable,
    HadEndOfIndexMarker,
    EndOfIndexMarker,
    // a directory of the cache tree extension (TREE)
    DirectoryName,
    DirectoryId,
    NumEntries,
    Children,
    // the link to a shared index
    SharedIndexChecksum,
    Bitmaps,
    Delete,
    Replace,
    // a bitmap
    NumBits,
    SetBits,
    IsMalformed,
    // a path that was in conflict
    ResolvedPath,
    Stages,
    // the untracked cache
    Identifier,
    DirFlags,
    ExcludeFilenamePerDir,
    InfoExclude,
    ExcludesFile,
    Directories,
    // a directory of the untracked cache
    UntrackedEntries,
    UntrackedName,
    SubDirectories,
    // the file system monitor
    NanosSince1970,
    Token,
    EntryDirty,
    // the end marker
    OffsetToExtensions,
    EndChecksum,
}

/// The type of the elements of an array.
#[derive(Clone, Copy)]
pub enum Item {
    /// A directory of the cache tree extension (TREE).
    Child,
    /// A path that was in conflict.
    ResolvedPath,
    /// The common ancestor's side of a conflict.
    Base,
    Ours,
    Theirs,
    /// A directory of the untracked cache.
    Directory,
    /// The name of an untracked file.
    UntrackedEntry,
    /// The index of a directory of the untracked cache.
    SubDirectory,
    /// A block of entries.
    Block,
}

/// The position of a value in the structure. Depth 0 is that of the members of the outermost object.
#[derive(Clone, Copy)]
pub enum Where {
    /// Not in an object or an array.
    Alone,
    /// A member of an object: its field, its depth, and its number among the members, counted from 0.
    Member(Key, u32, u32),
    /// An element of an array: its type, its depth, and its index, counted from 0.
    Element(Item, u32, usize),
}

/// A value.
#[derive(Clone, Copy)]
pub enum Datum {
    Number(u64),
    /// An id, or none.
    Id(Option<ObjectId>),
    /// Whether something holds.
    Answer(bool),
    /// A side of a conflict, or none.
    Side(Option<Stage>),
    /// A block of entries.
    Block(Offset),
    /// A number, or that it isn't known.
    Count(Option<u32>),
    /// No value.
    Absent,
    /// The part is there and malformed.
    Malformed,
}

/// A begin, a value or an end. If printers order the parts of something differently, it is one value: an entry, a file
/// of exclude patterns, and the facts about a directory of the untracked cache.
#[derive(Clone, Copy)]
pub enum Event<'a> {
    Value(Where, Datum),
    /// A text, which may be any bytes.
    Bytes(Where, &'a [u8]),
    /// Ranges of indices.
    Ranges(Where, &'a [Range]),
    /// An entry, its index among the entries, and its path.
    EntryAt(usize, &'a Entry, &'a [u8]),
    /// A file of exclude patterns, by its id and its stat, or none.
    ExcludeFile(Where, Option<&'a OidStat>),
    /// The first members of a directory's object: name, stat, exclude file, and whether it was only checked.
    DirectoryFacts(&'a Directory),
    BeginObject(Where),
    /// The begin of an object whose last member is an array, and the number of the array's elements.
    BeginCollection(Where, usize),
    EndObject(Where),
    /// The begin of an array, and the number of its elements.
    BeginArray(Where, usize),
    EndArray(Where),
    EndText,
}
