//! Creates an index.

ghost use Rattle.std.specs.Prelude.{◌≡◌, [], Ok, IfOk, IfErr};
ghost use Rattle.index_state.specs.Edits.{empty_contents};
ghost use Rattle.index_model.specs.Storable.{IsStorable};
ghost use Rattle.index_state.specs.State.{PathsInStorage, contents, storage_of};
ghost use Rattle.index_state.specs.StateTrees.{IsOfTree, ReadTreeCause};

use crate::State;
use entry_fields::entry::FileTime;
use entry_list::Version;
use index_model::Parts;
use index_model::extension::Outcome;
use index_parts::check::ComponentCheck;
use index_parts::hash::{Kind, ObjectId};
use index_parts::object::Find;
use std::alloc::Global;
use tree_decode::from_tree::{Error, leaves_of};

impl State {
    /// Returns an index without entries and extensions, of version 2, for ids of the hash algorithm `object_hash`. Its
    /// timestamp is `now`.
    ///
    /// No memory is allocated. `alloc` is used for entries and paths that are added later.
    pub fn new(alloc: Global, object_hash: Kind, now: FileTime) -> State
        ensures empty { contents result ≡ empty_contents object_hash now }
        ensures storage { storage_of result ≡ [] }
        ensures placed { PathsInStorage result }
        ensures storable { IsStorable (contents result) }
    {
        State {
            parts: Parts {
                object_hash,
                timestamp: now,
                version: Version::V2,
                entries: Vec::new(alloc),
                path_backing: Vec::new(alloc),
                extensions: Outcome::none(),
                extensions_fit: true,
            },
        }
    }

    /// Returns an index of the leaves of a tree and of the trees below it, in their order ("Pro Git", "Git Objects").
    /// It has version 2 and no extension, and its ids are of the hash algorithm of `tree`. Its timestamp is `now`.
    ///
    /// A leaf is an item that isn't a tree. Its path is the names that lead to it, joined by `/`. Its mode follows from
    /// the item's mode; stat data and flags are 0. `max_objects` limits how many objects are read; it is compared
    /// before each call of `objects`. A tree is read completely before its names are checked. Each name must pass
    /// `check` before its item is listed or read. The name of a link must also pass it as that of a link.
    ///
    /// If each tree that is read has its entries in git's order, and no name contains a slash, the entries strictly
    /// increase.
    ///
    /// The first error is returned, and no state.
    pub fn from_tree<F: Find, C: ComponentCheck>(
        alloc: Global,
        tree: &ObjectId,
        objects: &F,
        check: &C,
        max_objects: usize,
        now: FileTime,
    ) -> Result<State, Error>
        ensures made { IfOk result
            (IsOfTree (F.found objects.now) (C.refusal check.now) tree.now max_objects now) }
        ensures fault { IfErr result
            (ReadTreeCause (F.found objects.now) (C.refusal check.now) tree.now max_objects) }
    {
        let leaves = leaves_of(alloc, tree, objects, check, max_objects)?;
        let (entries, path_backing) = leaves.into_parts();
        let mut state = State::new(alloc, tree.kind(), now);
        state.parts.entries = entries;
        state.parts.path_backing = path_backing;
        Ok(state)
    }
}
