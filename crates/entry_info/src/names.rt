//! The names that git allows in a path.

use index_parts::check::ComponentCheck;

/// The number for the names of a directory itself and of the directory above it.
pub const OF_DIRECTORIES: u32 = 1;
/// The number for the name of the repository's own directory.
pub const OF_REPOSITORIES: u32 = 2;
/// The number for a link with the name of the file that lists submodules.
pub const OF_SUBMODULES: u32 = 3;

/// The check that accepts the names that git allows in a path. It rejects `.`, `..` and `.git`, and `.gitmodules` as
/// the name of a link. The last two are rejected in upper and in lower case.
#[derive(Clone, Copy)]
pub struct PathNames;

impl ComponentCheck for PathNames {
    ghost use Rattle.entry_info.specs.Names.{name_rejection};

    ghost refusal = { λ _ name symlink. name_rejection name symlink };

    fn check(&self, name: &[u8], symlink: bool) -> Result<(), u32> {
        if name == b".".as_slice() || name == b"..".as_slice() {
            return Err(OF_DIRECTORIES);
        }
        if name.eq_ignore_ascii_case(b".git") {
            return Err(OF_REPOSITORIES);
        }
        if symlink && name.eq_ignore_ascii_case(b".gitmodules") {
            return Err(OF_SUBMODULES);
        }
        Ok(())
    }
}
