//! Converts entries to trees.

ghost use Rattle.std.specs.Prelude.{◌≡◌, ◌⊎◌, ◌<◌, ◌^◌, Some, IfOk, IfErr, OnErr, length};
ghost use Rattle.ext_tree.specs.Tree.{node_of};
ghost use Rattle.entry_list.specs.Order.{IsStrictlyOrdered};
ghost use Rattle.tree_encode.specs.Refusals.{AreFit};
ghost use Rattle.index_state.specs.Edits.{with_cached_tree};
ghost use Rattle.index_state.specs.State.{contents, entries_of, records, storage_of};
ghost use Rattle.index_state.specs.StateEdits.{HasRenewedTree};
ghost use Rattle.index_state.specs.StateTrees.{HasFewEntries, HasFitEntries, HasRightIds, WriteTreesCause};
ghost use Rattle.index_state.specs.StateTrees.{TreeIdsErrorCause};
ghost use Rattle.index_state.specs.StateTrees.{StoresFirst, StoresTrees};

use crate::State;
use crate::verify::tree_ids;
use ext_tree::Tree;
use index_parts::check::ComponentCheck;
use std::alloc::Global;
use tree_encode::kept::keep_counts;
use tree_encode::tree_ids::verify_tree_ids;
use tree_encode::write::write_trees;
use tree_encode::{Error, Sink};

impl State {
    /// Writes the tree objects of the entries to the sink, as `git write-tree` makes them. Each directory's object is
    /// written once, with its id and bytes, after those that it refers to; the root is last. Returns the cache tree for
    /// them.
    ///
    /// Entries that are marked `REMOVE` are omitted. An intent-to-add entry is checked like the others, but is in no
    /// tree, and no directory above it has a count. The entry of a sparse directory represents its tree. Each name of a
    /// path must pass `check`. The name of a link must also pass it as that of a link.
    ///
    /// # Errors
    ///
    /// - The first entry that can't be in a tree, before anything is written to the sink.
    /// - An error of the sink, or an allocation failure. The sink then has the first objects in that order, or none,
    ///   and never the root.
    pub fn write_trees<S: Sink, C: ComponentCheck>(
        &self,
        alloc: Global,
        check: &C,
        sink: &mut S,
    ) -> Result<Tree, Error>
        requires { IsStrictlyOrdered (records self.now) }
        ensures written { IfOk result
            (StoresTrees self.now (S.stored sink.old) (S.stored sink.new)) }
        ensures fit { IfOk result
            (λ _. AreFit (C.refusal check.now) (contents self.now).kind (records self.now)) }
        ensures few { IfOk result (λ _. length (records self.now) < 2 ^ 31) }
        ensures ended { OnErr result ((sink.new ≡ sink.old)
            ⊎ StoresFirst self.now (S.stored sink.old) (S.stored sink.new)) }
        ensures fault { IfErr result (WriteTreesCause (C.refusal check.now) self.now
            (S.fault sink.new) (sink.new ≡ sink.old)) }
    {
        write_trees(alloc, self.parts.object_hash, &self.slice(), check, sink)
    }

    /// Replaces the cache tree. It isn't compared with the entries; the caller ensures that it matches them. If the
    /// other extensions aren't known to match the entries, an untracked cache and a monitor's answer are removed.
    /// Everything else is unchanged.
    pub fn set_tree(&mut self, tree: Tree)
        ensures set { contents self.new ≡ with_cached_tree (contents self.old) (node_of tree) }
        ensures entries { entries_of self.new ≡ entries_of self.old }
        ensures storage { storage_of self.new ≡ storage_of self.old }
    {
        if !self.parts.extensions_fit {
            self.parts.extensions.untracked = None;
            self.parts.extensions.fs_monitor = None;
            self.parts.extensions_fit = true;
        }
        self.parts.extensions.tree = Some(tree);
    }

    /// Replaces the cache tree by one that was made from the entries, with only those counts that the current tree has
    /// too. A node keeps its count and id if the current tree has the same ones at that directory. Any other node is
    /// invalid and has the null id. So the result names no tree that the current cache tree doesn't name. Everything
    /// else is as with [`set_tree`](State::set_tree).
    pub fn renew_tree(&mut self, mut tree: Tree)
        ensures set { HasRenewedTree (node_of tree) self.old self.new }
        ensures entries { entries_of self.new ≡ entries_of self.old }
        ensures storage { storage_of self.new ≡ storage_of self.old }
    {
        let old = self.parts.extensions.tree.as_ref();
        keep_counts(self.parts.object_hash, &mut tree, old);
        self.set_tree(tree);
    }

    /// Compares the cache tree with the entries (gitformat-index, "Cache tree"). Each node that has a count must have
    /// the id of the tree that `git write-tree` makes of the entries below its directory. Its count must be the number
    /// of these entries. If one of them isn't merged, there is no such tree. Of a node without a count only the
    /// children are compared.
    ///
    /// The error is the first node in preorder that differs, with its values and those of the entries. Before any node,
    /// it is the first merged entry that can't be in a tree, as in [`write_trees`](State::write_trees) with a check
    /// that every name passes.
    pub fn verify_tree_ids(&self, alloc: Global) -> Result<(), tree_ids::Error>
        requires { IsStrictlyOrdered (records self.now) }
        ensures right { IfOk result (λ _. HasRightIds self.now) }
        ensures fit { IfOk result (λ _. HasFitEntries self.now) }
        ensures few { IfOk result (λ _. HasFewEntries self.now) }
        ensures fault { IfErr result (TreeIdsErrorCause self.now) }
    {
        let Some(tree) = self.tree() else {
            return Ok(());
        };
        let backing = self.path_backing();
        verify_tree_ids(alloc, self.parts.object_hash, self.entries(), backing, tree)
    }
}
