//! The directories whose bits are set in the bitmaps of an untracked cache (gitformat-index, "Untracked cache").

ghost use Rattle.ext_encode.specs.UntrackedImage.{has_mark};

use ext_bitmap::marks::Marker;
use ext_untracked::Directory;

/// The property of directories that a bitmap stores.
#[derive(Clone, Copy)]
pub(crate) enum Mark {
    /// The directory's stat is valid.
    Valid,
    /// The directory was only checked for whether it has untracked files.
    CheckOnly,
    /// The id of the directory's file of exclude patterns is valid.
    HashValid,
}

impl Marker<Directory> for Mark {
    ghost is_marked = { has_mark };

    fn has_bit(&self, directory: &Directory) -> bool {
        match self {
            Mark::Valid => directory.stat.is_some(),
            Mark::CheckOnly => directory.check_only,
            Mark::HashValid => directory.exclude_file_oid.is_some(),
        }
    }
}
