//! The extensions as they were when the file was read (gitformat-index, "Extensions").

ghost use Rattle.std.specs.Borrow.{sem};
ghost use Rattle.std.specs.Option.{option_map, option_copied_mut};
ghost use Rattle.std.specs.Prelude.{◌≡◌};
ghost use Rattle.ext_small.specs.FsMonitor.{monitor_of};
ghost use Rattle.ext_tree.specs.Tree.{node_of};
ghost use Rattle.ext_untracked.specs.Untracked.{cache_of};
ghost use Rattle.index_state.specs.Edits.{LendsTree, without_link, without_resolve_undo, without_tree};
ghost use Rattle.ext_split.specs.Link.{link_of};
ghost use Rattle.index_state.specs.State.{contents, entries_of, storage_of};
ghost use Rattle.index_state.specs.Edits.{undo_of};

use crate::State;
use ext_small::{FsMonitor, resolve_undo};
use ext_split::link::Link;
use ext_tree::Tree;
use ext_untracked::UntrackedCache;

impl State {
    /// Returns the cache tree, if the file had one that could be read (gitformat-index, "Cache tree"). `stage`,
    /// `resolve`, `unstage` and `apply` invalidate the nodes that they affect. All other edits of entries leave it
    /// unchanged.
    pub fn tree(&self) -> Option<&Tree>
        ensures { option_map (λ t. node_of t.now) result ≡ (contents self.now).extensions.tree }
    {
        self.parts.extensions.tree.as_ref()
    }

    /// Borrows the cache tree mutably, if there is one. Everything else is unchanged.
    pub fn tree_mut(&mut self) -> Option<&mut Tree>
        ensures* writes_back { sem 𝓛 (LendsTree self.entry result) }
        ensures value { option_map node_of (option_copied_mut result)
            ≡ (contents self.old).extensions.tree }
    {
        self.parts.tree_mut()
    }

    /// Removes the cache tree and returns it. Everything else is unchanged.
    pub fn remove_tree(&mut self) -> Option<Tree>
        ensures given { option_map node_of result ≡ (contents self.old).extensions.tree }
        ensures removed { contents self.new ≡ without_tree (contents self.old) }
        ensures entries { entries_of self.new ≡ entries_of self.old }
        ensures storage { storage_of self.new ≡ storage_of self.old }
    {
        self.parts.extensions.tree.take()
    }

    /// Returns the link to a shared index, if the file was a split index (gitformat-index, "Split index").
    pub fn link(&self) -> Option<&Link>
        ensures { option_map (λ l. link_of l.now) result ≡ (contents self.now).extensions.link }
    {
        self.parts.extensions.link.as_ref()
    }

    /// Removes the link and returns it. Everything else is unchanged, including whether the extensions match.
    pub fn take_link(&mut self) -> Option<Link>
        ensures given { option_map link_of result ≡ (contents self.old).extensions.link }
        ensures removed { contents self.new ≡ without_link (contents self.old) }
        ensures entries { entries_of self.new ≡ entries_of self.old }
        ensures storage { storage_of self.new ≡ storage_of self.old }
    {
        self.parts.extensions.link.take()
    }

    /// Returns the stages of resolved conflicts, path by path, if the file had them and they could be read
    /// (gitformat-index, "Resolve undo").
    pub fn resolve_undo(&self) -> Option<&resolve_undo::Paths>
        ensures { option_map (λ paths. undo_of paths.now) result
            ≡ (contents self.now).extensions.resolve_undo }
    {
        self.parts.extensions.resolve_undo.as_ref()
    }

    /// Removes the stages of resolved conflicts and returns them. Everything else is unchanged.
    pub fn remove_resolve_undo(&mut self) -> Option<resolve_undo::Paths>
        ensures given { option_map undo_of result ≡ (contents self.old).extensions.resolve_undo }
        ensures removed { contents self.new ≡ without_resolve_undo (contents self.old) }
        ensures entries { entries_of self.new ≡ entries_of self.old }
        ensures storage { storage_of self.new ≡ storage_of self.old }
    {
        self.parts.extensions.resolve_undo.take()
    }

    /// Returns the cache of untracked files, if the file had it and it could be read (gitformat-index, "Untracked
    /// cache").
    pub fn untracked(&self) -> Option<&UntrackedCache>
        ensures { option_map (λ cache. cache_of cache.now) result
            ≡ (contents self.now).extensions.untracked }
    {
        self.parts.extensions.untracked.as_ref()
    }

    /// Returns the answer of a file system monitor, if the file had it and it could be read (gitformat-index, "File
    /// System Monitor cache").
    pub fn fs_monitor(&self) -> Option<&FsMonitor>
        ensures { option_map (λ monitor. monitor_of monitor.now) result
            ≡ (contents self.now).extensions.fs_monitor }
    {
        self.parts.extensions.fs_monitor.as_ref()
    }

    /// Returns whether the extensions match the entries: the cache tree, the untracked cache, and the answer of a file
    /// system monitor.
    ///
    /// - It is true for a state that was read or newly created.
    /// - It is false for a split index that was read alone, unless its link has a null id. The extensions of a split
    ///   index describe the shared index's entries too. A merge by the link's bitmaps makes it true.
    /// - It is false after an edit of entries that doesn't update the three.
    ///   [`Extensions::Kept`](index_model::write::Extensions::Kept) then omits them.
    /// - [`set_tree`](State::set_tree) makes it true.
    pub fn extensions_fit(&self) -> bool
        ensures { result ≡ (contents self.now).fit }
    {
        self.parts.extensions_fit
    }

    /// Returns whether the file had an end marker, whatever its content (gitformat-index, "End of Index Entry").
    pub fn had_end_of_index_marker(&self) -> bool
        ensures { result ≡ (contents self.now).extensions.had_end_marker }
    {
        self.parts.extensions.had_end_of_index_marker
    }

    /// Returns whether the file had an offset table, whatever its content (gitformat-index, "Index Entry Offset
    /// Table").
    pub fn had_offset_table(&self) -> bool
        ensures { result ≡ (contents self.now).extensions.had_offset_table }
    {
        self.parts.extensions.had_offset_table
    }
}
