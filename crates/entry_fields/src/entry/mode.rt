//! The mode of an entry: the type of its file.

ghost use Rattle.std.specs.Prelude.{◌≡◌, ◌⊎◌, ⊤, [], ◌∷◌, codes, ◌==◌, ◌&&◌, if◌then◌else◌};
ghost use Rattle.std.specs.Option.{option_map};
ghost use Rattle.index_parts.specs.Mode.{stored_mode, directory_mode, commit_mode, file_mode, executable_mode};
ghost use Rattle.index_parts.specs.Mode.{link_mode, mode_of_kind, named_kind};
ghost use Rattle.entry_fields.specs.ModeChange.{mode_change_of, change_due, mode_after, other_bit};

use bitflags::{Flag, Flags, bitflag_items};
use index_parts::object::tree::{EntryKind, EntryMode};

/// The mode of an entry: the type of its file, and whether its owner may run it.
///
/// The mode of a file is one of the five named modes (gitformat-index, "Index entry"). Reading preserves only the bits
/// that one of them has. The operations of sets are those of the trait `bitflags::Flags`. Ordered by its bits.
#[derive(Clone, Copy, Debug, PartialEq, Eq, PartialOrd, Ord, Hash)]
pub struct Mode(u32);

bitflag_items! {
    impl Mode: u32 {
        const DIR = 0o040000;
        const FILE = 0o100644;
        const FILE_EXECUTABLE = 0o100755;
        const SYMLINK = 0o120000;
        const COMMIT = 0o160000;
    }
}

impl Flags for Mode {
    type Bits = u32;

    ghost exact = { ⊤ };

    ghost table = { (codes "DIR", 0o040000) ∷ (codes "FILE", 0o100644)
        ∷ (codes "FILE_EXECUTABLE", 0o100755)
        ∷ (codes "SYMLINK", 0o120000) ∷ (codes "COMMIT", 0o160000) ∷ [] };

    ghost set_of = { λ m. m.0 };

    fn flags<'a>() -> &'a [Flag<Mode>] {
        Mode::FLAGS
    }

    fn bits(&self) -> u32 {
        self.0
    }

    fn from_bits_retain(bits: u32) -> Mode {
        Mode(bits)
    }
}

impl Mode {
    /// Returns the bits of the mode that a file stores: those that a named mode has.
    pub fn to_stored(self) -> Mode
        ensures { result.0 ≡ stored_mode self.0 }
    {
        Mode(self.0 & 0o160755)
    }

    /// Returns whether the entry is for a complete directory, as in a sparse index.
    pub fn is_sparse(&self) -> bool
        ensures { result ≡ (self.now.0 == directory_mode) }
    {
        *self == Mode::DIR
    }

    /// Returns whether the entry is another repository's commit.
    pub fn is_submodule(&self) -> bool
        ensures { result ≡ (self.now.0 == commit_mode) }
    {
        *self == Mode::COMMIT
    }

    /// Returns the type of a tree's entry for this mode, or None if it is none of the five named modes.
    fn kind(self) -> Option<EntryKind>
        ensures { result ≡ named_kind self.0 }
    {
        if self == Mode::DIR {
            return Some(EntryKind::Tree);
        }
        if self == Mode::FILE {
            return Some(EntryKind::Blob);
        }
        if self == Mode::FILE_EXECUTABLE {
            return Some(EntryKind::BlobExecutable);
        }
        if self == Mode::SYMLINK {
            return Some(EntryKind::Link);
        }
        if self == Mode::COMMIT {
            return Some(EntryKind::Commit);
        }
        None
    }

    /// Returns this mode as that of a tree's entry, or None if it is none of the five named modes.
    pub fn to_tree_entry_mode(&self) -> Option<EntryMode>
        ensures { option_map (λ mode. mode.0) result
            ≡ option_map mode_of_kind (named_kind self.now.0) }
    {
        let kind = self.kind()?;
        Some(EntryMode::from(kind))
    }

    /// Returns whether it is this mode and the condition holds.
    fn fits(self, mode: Mode, condition: bool) -> bool
        ensures { result ≡ (self.0 == mode.0) && condition }
    {
        self == mode && condition
    }

    /// Returns the change after which the mode is that of the given file, or None if it matches. The first row that
    /// matches decides.
    ///
    /// `has_symlinks` and `executable_bit` are what the file system supports. Without links a file is in place of a
    /// link. Without the bit a file's mode is unchanged.
    ///
    /// - An entry of mode [`Mode::FILE`] changes its type if no file is there.
    /// - An entry of a link changes its type if no link is there. If the file system has no links, it changes if no
    ///   file is there.
    /// - An entry of a commit or directory changes its type if no directory is there.
    /// - An entry of a file whose bit for execution differs changes only the bit.
    /// - Everything else is unchanged.
    pub fn change_to_match_fs_with_values(
        self,
        is_file: bool,
        is_dir: bool,
        is_symlink: bool,
        is_executable: bool,
        has_symlinks: bool,
        executable_bit: bool,
    ) -> Option<Change>
        ensures { option_map mode_change_of result ≡ change_due self.0 (record {
          is_file = is_file;
          is_dir = is_dir;
          is_symlink = is_symlink;
          is_executable = is_executable;
          has_symlinks = has_symlinks;
          executable_bit = executable_bit;
        }) }
    {
        let runs = executable_bit && is_executable;
        let stays = executable_bit && !is_executable;
        let links = has_symlinks && is_symlink;
        let new_mode = mode_seen(is_dir, runs, links);
        if self.fits(Mode::FILE, !is_file) {
            return Some(Change::TypeChange { new_mode });
        }
        if self.fits(Mode::SYMLINK, is_symlink) {
            return None;
        }
        if self.fits(Mode::SYMLINK, has_symlinks) {
            return Some(Change::TypeChange { new_mode });
        }
        if self.fits(Mode::SYMLINK, !is_file) {
            return Some(Change::TypeChange { new_mode });
        }
        if self.fits(Mode::COMMIT, !is_dir) {
            return Some(Change::TypeChange { new_mode });
        }
        if self.fits(Mode::DIR, !is_dir) {
            return Some(Change::TypeChange { new_mode });
        }
        if self.fits(Mode::FILE, runs) {
            return Some(Change::ExecutableBit);
        }
        if self.fits(Mode::FILE_EXECUTABLE, stays) {
            return Some(Change::ExecutableBit);
        }
        None
    }
}

/// Returns the mode of a directory, else of an executable file, else of a link, else of a file.
fn mode_seen(is_dir: bool, runs: bool, links: bool) -> Mode
    ensures { result.0
        ≡ (if is_dir then commit_mode else
        (if runs then executable_mode else (if links then link_mode else file_mode))) }
{
    if is_dir {
        return Mode::COMMIT;
    }
    if runs {
        return Mode::FILE_EXECUTABLE;
    }
    if links {
        return Mode::SYMLINK;
    }
    Mode::FILE
}

/// Returns the mode of an entry of this type.
impl From<EntryKind> for Mode {
    ghost from_gives = { λ kind mode. mode.0 ≡ mode_of_kind kind };

    fn from(kind: EntryKind) -> Mode {
        match kind {
            EntryKind::Tree => Mode::DIR,
            EntryKind::Blob => Mode::FILE,
            EntryKind::BlobExecutable => Mode::FILE_EXECUTABLE,
            EntryKind::Link => Mode::SYMLINK,
            EntryKind::Commit => Mode::COMMIT,
        }
    }
}

/// Returns the mode that an entry of the index stores for a tree's mode.
impl From<EntryMode> for Mode {
    ghost from_gives = { λ entry mode. mode.0 ≡ stored_mode entry.0 };

    fn from(mode: EntryMode) -> Mode {
        Mode(u32::from(mode.value())).to_stored()
    }
}

/// The change after which a mode matches the file in the work tree.
#[derive(Clone, Copy, Debug, PartialEq, Eq)]
pub enum Change {
    /// A file of another type is there.
    TypeChange {
        /// Its mode.
        new_mode: Mode,
    },
    /// The bit for execution of the file's owner differs.
    ExecutableBit,
}

impl Change {
    /// Returns the mode after the change. The mode must be a file's if the bit for execution changes.
    pub fn apply(self, mode: Mode) -> Mode
        requires of_a_file { mode_change_of self ≡ other_bit
            → (mode.0 ≡ file_mode) ⊎ (mode.0 ≡ executable_mode) }
        ensures { result.0 ≡ mode_after (mode_change_of self) mode.0 }
    {
        match self {
            Change::TypeChange { new_mode } => new_mode,
            Change::ExecutableBit => {
                if mode == Mode::FILE {
                    return Mode::FILE_EXECUTABLE;
                }
                Mode::FILE
            }
        }
    }
}
