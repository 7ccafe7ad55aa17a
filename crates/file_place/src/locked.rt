//! The paths of a locked file.

ghost use Rattle.std.specs.Prelude.{◌≡◌, ◌++◌, codes};
ghost use Rattle.std.specs.Path.{path_buf_bytes};

use std::path::PathBuf;

/// The paths of a locked file, for which `<file>.lock` was created next to it. Only [`Place::commit`] and
/// [`Place::release`] remove the lock.
#[derive(Debug, Drop)]
pub struct Place {
    pub(crate) asked: PathBuf,
    pub(crate) target: PathBuf,
    pub(crate) path: PathBuf,
    ghost beside: { path_buf_bytes path ≡ path_buf_bytes target ++ codes ".lock" },
}
