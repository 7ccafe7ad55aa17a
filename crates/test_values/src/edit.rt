//! Tests of entries that are sorted by a closure.

use gix_index::State;
use gix_index::entry::{FileTime, Flags, Mode, Stage, Stat};
use gix_index::hash::{Kind, ObjectId};
use std::cmp::Ordering;
use std::test::Fail;

/// Returns a new state with the entries `b`, `a` and `a`, whose ids are of the bytes 1, 2 and 3.
fn three_entries(rt: &HostRuntime) -> Result<State, Fail> {
    let mut state = State::new(rt.alloc(), Kind::Sha1, FileTime::EPOCH);
    let flags = Flags::from_stage(Stage::Unconflicted);
    for (byte, path) in [(1, b"b"), (2, b"a"), (3, b"a")] {
        let id = ObjectId::Sha1([byte; 20]);
        state.dangerously_push_entry(Stat::default(), id, flags, Mode::FILE, path)?;
    }
    Ok(state)
}

/// Returns the first byte of each entry's id, in the order of the entries.
fn bytes_of_ids(rt: &HostRuntime, state: &State) -> Result<Vec<u8>, Fail> {
    let mut bytes = Vec::new(rt.alloc());
    for entry in state.entries() {
        bytes.extend_from_slice(entry.id.as_bytes().get(..1).unwrap_or_default())?;
    }
    Ok(bytes)
}

#[test]
fn ties_follow_a_lawful_closure(rt: HostRuntime) -> Result<(), Fail> {
    let mut state = three_entries(&rt)?;
    state.sort_entries_by(|_, _| Ordering::Less)?;
    let last = state.entries().last().map(|entry| entry.id);
    assert_eq!(rt; last, Some(ObjectId::Sha1([1; 20])));
    state.sort_entries_by(|a, b| b.id.as_bytes().cmp(a.id.as_bytes()))?;
    assert_eq!(rt; bytes_of_ids(&rt, &state)?.as_slice(), [3, 2, 1].as_slice());
    Ok(())
}
