//! The command `trees`, and the trees of an index.

ghost use Rattle.std.specs.Prelude.{IfErr, IfOk, None};
ghost use Rattle.gix_index.specs.File.{state_of};
ghost use Rattle.gix_index.specs.State.{contents};
ghost use Rattle.gix_index.specs.Tree.{node_of};
ghost use Rattle.tool_edit.specs.Trees.{IsOfTrees, IsTreeOfIndex, ListsTrees};

use base_text::lines::Lines;
use gix_index::File;
use gix_index::extension::Tree;
use gix_index::file::folder::Folder;
use gix_index::hash::Kind;
use gix_index::hash::io::Out;
use gix_index::init::ComponentCheck;
use gix_index::write_trees::Discard;
use std::alloc::Global;
use tool_errors::failure::Failure;
use tool_errors::index::index_at;
use view_list::write_trees;

/// Accepts all names, as git has checked those of an index.
#[derive(Clone, Copy)]
struct AnyName;

impl ComponentCheck for AnyName {
    ghost refusal = { λ _ _ _. None };

    fn check(&self, _name: &[u8], _symlink: bool) -> Result<(), u32> {
        Ok(())
    }
}

/// Returns the cache tree of the entries of an index, rebuilt.
///
/// # Errors
///
/// - [`Failure::Entries`]: the entries aren't in order, or an allocation failed.
/// - [`Failure::Trees`]: the entries make no trees, or an allocation failed.
pub fn tree_of<'a>(alloc: Global, index: &File, path: &'a str) -> Result<Tree, Failure<'a>>
    ensures made { IfOk result
        (λ tree. IsTreeOfIndex (contents (state_of index.now)) (node_of tree)) }
    ensures fault { IfErr result (IsOfTrees (contents (state_of index.now)) path.now) }
{
    if let Err(fault) = index.verify_entries() {
        return Err(Failure::Entries { path, fault });
    }
    match index.write_trees(alloc, &AnyName, &mut Discard) {
        Ok(tree) => Ok(tree),
        Err(fault) => Err(Failure::Trees { path, fault }),
    }
}

/// Writes a line to `out` for each directory of the trees that the entries of the index in a file make. The trees are
/// those that `git write-tree` would make.
///
/// Nothing is written to `out` before all trees are made. On success `out` took all lines.
///
/// # Errors
///
/// With [`Failure::Output`] `out` took a prefix of the lines. With any other failure it took nothing.
pub fn trees<'a, D: Folder, W: Out>(
    folder: &D,
    alloc: Global,
    style: Lines,
    kind: Kind,
    path: &'a str,
    out: &mut W,
) -> Result<(), Failure<'a>>
    ensures { ListsTrees style D.Folder folder.now kind path.now W.Out out.old out.new result }
{
    let index = index_at(folder, alloc, kind, path)?;
    let tree = tree_of(alloc, &index, path)?;
    match write_trees(alloc, &tree, style, out) {
        Ok(()) => Ok(()),
        Err(e) => Err(Failure::Output(e)),
    }
}
