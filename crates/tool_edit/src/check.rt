//! The commands `check` and `check-trees`.

ghost use Rattle.gix_index.specs.File.{state_of};
ghost use Rattle.gix_index.specs.Order.{IsOrderedByPath, IsStrictlyOrdered};
ghost use Rattle.gix_index.specs.State.{contents};
ghost use Rattle.tool_edit.specs.Checking.{ChecksIndex, ComparesTrees, LooksAtEach, Verifies};

use base_text::block::put_text;
use gix_index::File;
use gix_index::file::folder::Folder;
use gix_index::hash::Kind;
use gix_index::hash::io::Out;
use gix_index::object::NoObjects;
use std::alloc::Global;
use tool_errors::failure::Failure;
use tool_errors::index::index_at;
use view_strict::verify_strict;

/// What `out` receives for an index that passed all checks.
const OK_LINE: &[u8] = b"ok\n";

/// The optional checks of an index. Its checksum, the order of its entries and its cache tree extension (TREE) are
/// always checked.
#[derive(Clone, Copy)]
pub struct Checks {
    /// Whether the cache tree is compared with what the entries give.
    pub trees: bool,
    /// Whether each entry is checked for what git accepts.
    pub strict: bool,
}

/// Compares the cache tree with the entries if `checks` requests it.
///
/// # Errors
///
/// [`Failure::TreeIds`] reports that the cache tree differs from what the entries give, or that an allocation failed.
fn compare_trees<'a>(
    alloc: Global,
    checks: Checks,
    index: &File,
    path: &'a str,
) -> Result<(), Failure<'a>>
    requires { IsStrictlyOrdered (contents (state_of index.now)).records }
    ensures { ComparesTrees checks (contents (state_of index.now)) path.now result }
{
    if !checks.trees {
        return Ok(());
    }
    match index.verify_tree_ids(alloc) {
        Ok(()) => Ok(()),
        Err(fault) => Err(Failure::TreeIds { path, fault }),
    }
}

/// Checks that git accepts each entry, if `checks` requests it.
///
/// # Errors
///
/// [`Failure::Strict`] reports an entry that git doesn't accept, or that an allocation failed.
fn look_at_each<'a>(
    alloc: Global,
    checks: Checks,
    index: &File,
    path: &'a str,
) -> Result<(), Failure<'a>>
    requires { IsOrderedByPath (contents (state_of index.now)).records }
    ensures { LooksAtEach checks (contents (state_of index.now)) path.now result }
{
    if checks.strict
        && let Err(fault) = verify_strict(alloc, index)
    {
        return Err(Failure::Strict { path, fault });
    }
    Ok(())
}

/// Checks the order of the entries and the consistency of the cache tree, and what `checks` requests.
///
/// # Errors
///
/// - [`Failure::Entries`]: the entries aren't in order.
/// - [`Failure::CachedTree`]: the cache tree is inconsistent.
/// - [`Failure::Strict`]: git doesn't accept an entry, and `checks` requests that.
/// - [`Failure::TreeIds`]: the cache tree differs from what the entries give, and `checks` requests the comparison.
///
/// Each of them may also report that an allocation failed.
fn verify_contents<'a>(
    alloc: Global,
    checks: Checks,
    index: &File,
    path: &'a str,
) -> Result<(), Failure<'a>>
    ensures { Verifies checks (contents (state_of index.now)) path.now result }
{
    if let Err(fault) = index.verify_entries() {
        return Err(Failure::Entries { path, fault });
    }
    if let Err(fault) = index.verify_extensions(alloc, false, &NoObjects) {
        return Err(Failure::CachedTree { path, fault });
    }
    look_at_each(alloc, checks, index, path)?;
    compare_trees(alloc, checks, index, path)
}

/// Checks the index in a file, with the shared index that it links to, and writes `ok` and a newline to `out`.
///
/// - The checksum of the file's bytes is compared with their trailer once, as they are read, unless that is null.
/// - The entries must increase strictly by path, then by stage.
/// - The cache tree must be consistent, and no node of it may count more entries than there are. Objects aren't read.
/// - With `strict`, git must accept each entry, as [`verify_strict`] checks it.
/// - With `trees`, each node that has a count must have the id and the count that the entries give, as `git write-tree`
///   would make them.
///
/// Nothing is written to `out` before the last check has passed. On success `out` took the complete line.
///
/// # Errors
///
/// With [`Failure::Output`] `out` took a prefix of the line. With any other failure it took nothing.
pub fn check<'a, D: Folder, W: Out>(
    folder: &D,
    alloc: Global,
    checks: Checks,
    kind: Kind,
    path: &'a str,
    out: &mut W,
) -> Result<(), Failure<'a>>
    ensures { ChecksIndex checks D.Folder folder.now kind path.now W.Out out.old out.new result }
{
    let index = index_at(folder, alloc, kind, path)?;
    verify_contents(alloc, checks, &index, path)?;
    match put_text(OK_LINE, out) {
        Ok(()) => Ok(()),
        Err(e) => Err(Failure::Output(e)),
    }
}
