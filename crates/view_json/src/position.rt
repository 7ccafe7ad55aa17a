//! The position of a value in a JSON text, and the names of fields.

ghost use Rattle.std.specs.Prelude.{◌≡◌};
ghost use Rattle.view_json.specs.Names.{as_position, field_name, position_of};

use view_events::event::{Key, Where};

/// The position of a value in a JSON text.
#[derive(Clone, Copy)]
pub enum Position<'a> {
    /// Not in an object or an array.
    Alone,
    /// The first member of an object, with its name.
    First(&'a [u8]),
    /// Another member of an object, with its name.
    Next(&'a [u8]),
    /// An element of an array, with its index, counted from 0.
    Element(usize),
}

/// Returns the name of a field.
pub fn field_name<'a>(key: Key) -> &'a [u8]
    ensures { result.now ≡ field_name key }
{
    match key {
        Key::Version => b"version",
        Key::Checksum | Key::EndChecksum => b"checksum",
        Key::IsSparse => b"is_sparse",
        Key::Entries => b"entries",
        Key::Tree => b"tree",
        Key::Link => b"link",
        Key::ResolveUndo => b"resolve_undo",
        Key::Untracked => b"untracked",
        Key::FsMonitor => b"fs_monitor",
        Key::HadOffsetTable => b"had_offset_table",
        Key::OffsetTable => b"offset_table",
        Key::HadEndOfIndexMarker => b"had_end_of_index_marker",
        Key::EndOfIndexMarker => b"end_of_index_marker",
        Key::DirectoryName | Key::ResolvedPath | Key::UntrackedName => b"name",
        Key::DirectoryId => b"id",
        Key::NumEntries => b"num_entries",
        Key::Children => b"children",
        Key::SharedIndexChecksum => b"shared_index_checksum",
        Key::Bitmaps => b"bitmaps",
        Key::Delete => b"delete",
        Key::Replace => b"replace",
        Key::NumBits => b"num_bits",
        Key::SetBits => b"set",
        Key::IsMalformed => b"is_malformed",
        Key::Stages => b"stages",
        Key::Identifier => b"identifier",
        Key::DirFlags => b"dir_flags",
        Key::ExcludeFilenamePerDir => b"exclude_filename_per_dir",
        Key::InfoExclude => b"info_exclude",
        Key::ExcludesFile => b"excludes_file",
        Key::Directories => b"directories",
        Key::UntrackedEntries => b"untracked_entries",
        Key::SubDirectories => b"sub_directories",
        Key::NanosSince1970 => b"nanos_since_1970",
        Key::Token => b"token",
        Key::EntryDirty => b"entry_dirty",
        Key::OffsetToExtensions => b"offset_to_extensions",
    }
}

/// Returns the position in the JSON text for a position in the structure.
pub fn position_of<'a>(at: Where) -> Position<'a>
    ensures { as_position result ≡ position_of at }
{
    match at {
        Where::Alone => Position::Alone,
        Where::Member(key, _, 0) => Position::First(field_name(key)),
        Where::Member(key, _, _) => Position::Next(field_name(key)),
        Where::Element(_, _, place) => Position::Element(place),
    }
}
