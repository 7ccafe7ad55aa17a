//! The commands `rewrite` and `rewrite4`.

ghost use Rattle.std.specs.Prelude.{◌≡◌};
ghost use Rattle.tool_errors.specs.Options.{default_options};
ghost use Rattle.tool_edit.specs.Rewriting.{RewritesIndex, chosen};

use gix_index::Version;
use gix_index::file::folder::Folder;
use gix_index::hash::Kind;
use gix_index::write::{Extensions, Options, VersionChoice};
use std::alloc::Global;
use tool_errors::failure::Failure;
use tool_errors::index::opened_at;
use tool_errors::storing::{commit_at, kept_options, kept_options_as_read, lock_at};

/// The options with which an index is written again.
#[derive(Clone, Copy)]
pub enum Form {
    /// The default options: the smaller of the versions 2 and 3 that holds the flags, with `Extensions::All`.
    Smallest,
    /// The default options in version 4.
    V4,
    /// All extensions that fit, in version 4 if the index has it, and otherwise in the smaller of 2 and 3.
    AsRead,
    /// All extensions that fit, in version 4.
    AsReadV4,
}

/// Returns the default options, in the chosen version.
fn default_in(version: VersionChoice) -> Options
    ensures { result ≡ default_options version }
{
    Options {
        extensions: Extensions::All,
        version,
        skip_hash: false,
    }
}

/// Returns the options of a form for an index that was read in this version.
pub(crate) fn choice(form: Form, version: Version) -> Options
    ensures { result ≡ chosen form version }
{
    match (form, version) {
        (Form::Smallest, _) => default_in(VersionChoice::Smallest),
        (Form::V4, _) => default_in(VersionChoice::V4),
        (Form::AsReadV4, _) => kept_options(VersionChoice::V4),
        (Form::AsRead, version) => kept_options_as_read(version),
    }
}

/// Writes the index in a file, with the shared index that it links to, to another path or to the same path.
///
/// The file at the path `to` is locked before the other is opened, as git locks an index. It is written by the options
/// of the form. It gets the modification time of the file that is read, or else the time that [`commit_at`] gives it.
///
/// # Errors
///
/// With [`Failure::Lock`] or [`Failure::Rewrite`] the file at `to` can't be written. Any other failure concerns the
/// file that is read. After a failure what was at the path `to` is there as before.
pub fn rewrite<'a, D: Folder>(
    folder: &mut D,
    alloc: Global,
    form: Form,
    kind: Kind,
    path: &'a str,
    to: &'a str,
) -> Result<(), Failure<'a>>
    ensures { RewritesIndex form D.Folder folder.old folder.new kind path.now to.now result }
{
    let lock = lock_at(folder, alloc, to)?;
    match opened_at(folder, alloc, kind, path) {
        Ok(index) => {
            let options = choice(form, index.version());
            commit_at(folder, alloc, index, lock, options, to)
        }
        Err(failure) => {
            lock.release(folder);
            Err(failure)
        }
    }
}
