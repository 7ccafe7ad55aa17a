//! The layout for people: the words for a field or an element, its indent, and its heading.

ghost use Rattle.std.specs.Prelude.{◌≡◌, ◌≤◌};
ghost use Rattle.view_show.specs.Words.{has_heading, indent, indent_at, is_read, item_level, item_words};
ghost use Rattle.view_show.specs.Words.{key_level, key_words, level_at, line_words};

use view_events::event::{Item, Key, Where};

/// The depth of the directories of the cache tree extension (TREE) with the largest indent. Those below them have a
/// line for their depth.
pub const DEEPEST_DIRECTORY: u32 = 32;

/// The largest indent.
const SPACES: [u8; 68] = [b' '; 68];

/// Returns the words for a field.
fn words_of_key<'a>(key: Key) -> &'a [u8]
    ensures { result.now ≡ key_words key }
{
    match key {
        Key::Version => b"version",
        Key::Checksum => b"checksum",
        Key::IsSparse => b"sparse",
        Key::Entries | Key::NumEntries => b"entries",
        Key::Tree => b"cached tree",
        Key::Link | Key::SharedIndexChecksum => b"link",
        Key::ResolveUndo => b"resolve undo",
        Key::Untracked => b"untracked cache",
        Key::FsMonitor => b"file system monitor",
        Key::OffsetTable => b"offset table",
        Key::EndOfIndexMarker => b"end marker",
        Key::DirectoryName => b"directory",
        Key::DirectoryId => b"id",
        Key::Bitmaps => b"bitmaps",
        Key::Delete => b"deleted",
        Key::Replace => b"replaced",
        Key::NumBits => b"bits",
        Key::SetBits => b"set",
        Key::IsMalformed => b"malformed",
        Key::ResolvedPath => b"path",
        Key::Identifier => b"identifier",
        Key::DirFlags => b"flags",
        Key::ExcludeFilenamePerDir => b"exclude name",
        Key::InfoExclude => b"info/exclude",
        Key::ExcludesFile => b"excludes file",
        Key::UntrackedName => b"untracked",
        Key::NanosSince1970 => b"time",
        Key::Token => b"token",
        Key::EntryDirty => b"dirty",
        Key::OffsetToExtensions => b"offset",
        Key::EndChecksum => b"digest",
        _ => b"",
    }
}

/// Returns the words for an element.
fn words_of_item<'a>(item: Item) -> &'a [u8]
    ensures { result.now ≡ item_words item }
{
    match item {
        Item::Base => b"base",
        Item::Ours => b"ours",
        Item::Theirs => b"theirs",
        Item::Directory => b"directory",
        Item::SubDirectory => b"subdirectory",
        Item::Block => b"block",
        _ => b"",
    }
}

/// Returns the words for what is at a position.
pub fn line_words<'a>(at: Where) -> &'a [u8]
    ensures { result.now ≡ line_words at }
{
    match at {
        Where::Alone => b"",
        Where::Member(key, _, _) => words_of_key(key),
        Where::Element(item, _, _) => words_of_item(item),
    }
}

/// Returns the indent level of a field.
fn level_of_key(key: Key, depth: u32) -> u32
    ensures level { result ≡ key_level key depth }
    ensures bound { result ≤ 34 }
{
    let directory = (depth / 2).min(DEEPEST_DIRECTORY);
    match key {
        Key::DirectoryName => directory + 1,
        Key::DirectoryId | Key::NumEntries => directory + 2,
        Key::SharedIndexChecksum => 0,
        Key::Delete | Key::Replace | Key::ResolvedPath => 1,
        Key::NumBits | Key::SetBits | Key::IsMalformed | Key::UntrackedName => 2,
        _ => depth.min(DEEPEST_DIRECTORY + 2),
    }
}

/// Returns the indent level of an element.
fn level_of_item(item: Item) -> u32
    ensures level { result ≡ item_level item }
    ensures bound { result ≤ 34 }
{
    match item {
        Item::Directory | Item::Block => 1,
        _ => 2,
    }
}

/// Returns the indent level of what is at a position.
fn level_at(at: Where) -> u32
    ensures level { result ≡ level_at at }
    ensures bound { result ≤ 34 }
{
    match at {
        Where::Alone => 0,
        Where::Member(key, depth, _) => level_of_key(key, depth),
        Where::Element(item, _, _) => level_of_item(item),
    }
}

/// Returns the indent of a level: two spaces a level.
pub fn indent_of<'a>(level: u32) -> &'a [u8]
    requires { level ≤ 34 }
    ensures { result.now ≡ indent level }
{
    &SPACES[..2 * level as usize]
}

/// Returns the indent of what is at a position.
pub fn indent_at<'a>(at: Where) -> &'a [u8]
    ensures { result.now ≡ indent_at at }
{
    indent_of(level_at(at))
}

/// Returns whether the value of a field has a line.
pub fn is_read(at: Where) -> bool
    ensures { result ≡ is_read at }
{
    match at {
        Where::Member(Key::HadOffsetTable | Key::HadEndOfIndexMarker, _, _) => false,
        _ => true,
    }
}

/// Returns whether the begin of an object or an array has a line.
pub fn has_heading(at: Where) -> bool
    ensures { result ≡ has_heading at }
{
    match at {
        Where::Member(
            Key::Entries
            | Key::Tree
            | Key::ResolveUndo
            | Key::Untracked
            | Key::FsMonitor
            | Key::OffsetTable
            | Key::EndOfIndexMarker
            | Key::Delete
            | Key::Replace
            | Key::EntryDirty,
            _,
            _,
        ) => true,
        _ => false,
    }
}
