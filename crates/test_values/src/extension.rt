//! Tests of extensions of a state that are changed, removed and cloned.

use gix_index::State;
use gix_index::decode::Options;
use gix_index::entry::FileTime;
use gix_index::extension::tree;
use gix_index::hash::Kind;
use std::alloc::Global;
use std::test::Fail;

/// An index with no entry, an invalid cache tree extension (TREE), a path with resolve-undo, a file system monitor, and
/// a null trailer.
const EXTENDED: &[u8] =
    b"DIRC\0\0\0\x02\0\0\0\0TREE\0\0\0\x06\0-1 0\nREUC\0\0\0\x08a\0\x30\0\x30\0\x30\0\
FSMN\0\0\0\x16\0\0\0\x02t\0\0\0\0\x0c\0\0\0\0\0\0\0\0\0\0\0\0\0\0\0\0\0\0\0\0\0\0\0\0\0\0\0\0\0\0\0\0";

fn extended(alloc: Global) -> Result<State, Fail> {
    let options = Options::default();
    let (state, _) = State::from_bytes(alloc, EXTENDED, FileTime::EPOCH, Kind::Sha1, options)?;
    Ok(state)
}

/// The tree's number of entries, the number of paths with resolve-undo, and whether there is a monitor.
type Found = (Option<Option<u32>>, Option<usize>, bool);

fn found_in(state: &State) -> Found {
    (
        state.tree().map(|tree| tree.num_entries),
        state.resolve_undo().map(|paths| paths.len()),
        state.fs_monitor().is_some(),
    )
}

#[test]
fn a_tree_is_changed_and_removed(rt: HostRuntime) -> Result<(), Fail> {
    let mut state = extended(rt.alloc())?;
    state.tree_mut().ok_or("no tree")?.num_entries = Some(7);
    assert!(rt; found_in(&state) == (Some(Some(7)), Some(1), true));
    assert!(rt; state.remove_tree().is_some());
    assert!(rt; found_in(&state) == (None, Some(1), true));
    Ok(())
}

#[test]
fn resolve_undo_is_removed(rt: HostRuntime) -> Result<(), Fail> {
    let mut state = extended(rt.alloc())?;
    assert!(rt; state.remove_resolve_undo().is_some());
    assert!(rt; found_in(&state) == (Some(None), None, true));
    Ok(())
}

/// Returns whether a tree of `nodes` nodes equals its clone. Each node other than the last has the next one as its only
/// child.
fn equals_its_copy(alloc: Global, nodes: usize) -> Result<bool, Fail> {
    let mut bytes = Vec::new(alloc);
    for _ in 1..nodes {
        bytes.extend_from_slice(b"a\x00-1 1\n".as_slice())?;
    }
    bytes.extend_from_slice(b"a\x00-1 0\n".as_slice())?;
    let tree = tree::decode(alloc, &bytes, Kind::Sha1, None)?.ok_or("no tree")?;
    Ok(tree.clone()? == tree)
}

#[test]
fn the_deepest_tree_is_copied(rt: HostRuntime) -> Result<(), Fail> {
    assert!(rt; equals_its_copy(rt.alloc(), 2049)?);
    Ok(())
}
