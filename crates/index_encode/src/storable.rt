//! Tests whether entries, the cache tree and resolve-undo are read again as they were written (gitformat-index, "Index
//! entry", "Cache tree", "Resolve undo").

ghost use Rattle.std.specs.Prelude.{◌≡◌, ◌↔◌, All, IfSome, IsTrue, length, map};
ghost use Rattle.std.specs.Option.{option_map};
ghost use Rattle.ext_tree.specs.StoredTree.{IsStorableTree};
ghost use Rattle.ext_tree.specs.Tree.{node_of};
ghost use Rattle.entry_list.specs.Record.{records_in, with_path};
ghost use Rattle.entry_list.specs.Storable.{IsPlain, IsStorableIn};
ghost use Rattle.ext_encode.specs.ResolveUndoImage.{AreSpellablePaths, IsSpellablePath, IsSpellableStage};
ghost use Rattle.ext_small.specs.ResolveUndo.{path_stages};

use entry_list::paths::lacks_nul;
use entry_list::{Entry, PathStorageRef, Pathless};
use ext_small::resolve_undo::{Paths, ResolvePath, Stage};
use ext_tree::Tree;
use index_parts::hash::Kind;

/// The value of the length field of 12 bits for a path of this length or more. Such a path ends at the first NUL.
const FULL_LENGTH_FIELD: usize = 0xfff;

/// Returns whether a path is read with the same end after it is written: its length is counted, or it contains no NUL.
fn is_plain(path: &[u8]) -> bool
    ensures { IsTrue result ↔ IsPlain path.now }
{
    path.len() < FULL_LENGTH_FIELD || lacks_nul(path)
}

/// Returns whether a file with ids of this hash algorithm can store an entry of these parts at this path.
fn is_storable(entry: Pathless, path: &[u8], object_hash: Kind) -> bool
    ensures { IsTrue result ↔ IsStorableIn object_hash (with_path path.now entry) }
{
    entry.id.kind() == object_hash && is_plain(path)
}

/// Returns whether a file with ids of this hash algorithm can store all entries, including those that it omits. Each id
/// must be of that algorithm, and no path of 4095 bytes or more may contain a NUL. It is true without entries.
///
/// No memory is allocated. The time is linear in the entries and the bytes of long paths.
pub fn are_storable(entries: &[Entry], storage: PathStorageRef<'_>, object_hash: Kind) -> bool
    ensures { IsTrue result
        ↔ All (IsStorableIn object_hash) (records_in storage.now entries.now) }
{
    for entry in entries {
        let parts = Pathless {
            stat: entry.stat,
            id: entry.id,
            flags: entry.flags,
            mode: entry.mode,
        };
        if !is_storable(parts, entry.path_in(storage), object_hash) {
            return false;
        }
    }
    true
}

/// Returns whether a stage can be encoded in a file with ids of this hash algorithm: its id is of that algorithm, and
/// its mode isn't 0.
fn is_spellable_stage(stage: Option<Stage>, kind: Kind) -> bool
    ensures { IsTrue result ↔ IfSome stage (IsSpellableStage kind) }
{
    match stage {
        Some(stage) => stage.mode() != 0 && stage.id().kind() == kind,
        None => true,
    }
}

/// Returns whether all stages that are present can be encoded.
fn are_spellable_stages(stages: &[Option<Stage>; 3], kind: Kind) -> bool
    ensures each { IsTrue result ↔ All (λ stage. IfSome stage (IsSpellableStage kind)) stages.now }
    ensures three { length stages.now ≡ 3 }
{
    stages.iter().all(|stage| is_spellable_stage(*stage, kind))
}

/// Returns whether a path can be encoded: its name contains no NUL, and its stages can be encoded.
fn is_spellable_path(path: &ResolvePath, kind: Kind) -> bool
    ensures { IsTrue result ↔ IsSpellablePath kind (path_stages path.now) }
{
    lacks_nul(path.name()) && are_spellable_stages(path.stages(), kind)
}

/// Returns whether each path can be encoded.
fn is_each_spellable(paths: &[ResolvePath], kind: Kind) -> bool
    ensures { IsTrue result ↔ All (λ p. IsSpellablePath kind (path_stages p)) paths.now }
{
    paths.iter().all(|path| is_spellable_path(path, kind))
}

/// Returns whether all paths can be encoded in a file with ids of this hash algorithm, so that they are read as they
/// were written. No name may contain a NUL, and each id must be of that algorithm. No memory is allocated.
fn are_spellable(paths: &[ResolvePath], kind: Kind) -> bool
    ensures { IsTrue result ↔ AreSpellablePaths kind (map path_stages paths.now) }
{
    is_each_spellable(paths, kind)
}

/// Returns whether a cache tree with ids of this hash algorithm can be encoded; true if there is none. No memory is
/// allocated. The time is that of [`Tree::is_storable`].
pub fn is_tree_storable(tree: &Option<Tree>, kind: Kind) -> bool
    ensures { IsTrue result ↔ IfSome (option_map node_of tree.now) (IsStorableTree kind) }
{
    match tree {
        Some(tree) => tree.is_storable(kind),
        None => true,
    }
}

/// Returns whether resolve-undo with ids of this hash algorithm can be encoded; true if there is none. No memory is
/// allocated. The time is linear in its paths and their bytes.
pub fn is_undo_spellable(paths: &Option<Paths>, kind: Kind) -> bool
    ensures { IsTrue result
        ↔ IfSome (option_map (λ it. map path_stages it.items) paths.now) (AreSpellablePaths kind) }
{
    let Some(paths) = paths else {
        return true;
    };
    are_spellable(paths, kind)
}
