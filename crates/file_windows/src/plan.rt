//! Constants and the plan for reading a file in windows.

ghost use Rattle.std.specs.Prelude.{◌≡◌};
ghost use Rattle.entry_list.specs.Record.{AreBytes};
ghost use Rattle.index_parts.specs.Digest.{hasher_kind};
ghost use Rattle.file_windows.specs.Windowed.{TakesIn};

use entry_list::Version;
use index_parts::hash::{Hasher, Kind};

/// The number of bytes that are read at once.
pub const WINDOW_LEN: usize = 262_144;

/// The number of decoded bytes that stay in the window: enough for an end marker and the trailer.
pub const KEPT_LEN: usize = 52;

/// What is read, and whether it is hashed.
#[derive(Clone, Copy)]
pub(super) struct Plan {
    pub(super) version: Version,
    pub(super) kind: Kind,
    pub(super) count: u32,
    pub(super) is_hashed: bool,
    /// The length of the file in bytes.
    pub(super) len: usize,
    /// The offset of the extensions, if an end marker names it.
    pub(super) offset: Option<usize>,
    /// Whether all bytes after the entries are held.
    pub(super) keeps_ending: bool,
}

/// Hashes these bytes, if the plan requires it.
pub(super) fn hash_piece(plan: Plan, hasher: &mut Hasher, bytes: &[u8])
    ensures kind { hasher_kind hasher.new ≡ hasher_kind hasher.old }
    ensures more { TakesIn plan hasher.old hasher.new bytes.now }
    ensures are_bytes { AreBytes bytes.now }
{
    if plan.is_hashed {
        hasher.update(bytes);
    }
}
