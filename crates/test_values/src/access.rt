//! Tests of new states, and of entries that are pushed and changed.

use gix_index::entry::{FileTime, Flags, Mode, Stage, Stat};
use gix_index::hash::{Kind, ObjectId};
use gix_index::{State, Version};
use std::test::Fail;

#[test]
fn a_new_state_has_its_kind_and_time(rt: HostRuntime) -> Result<(), Fail> {
    let time = FileTime::new(7, 8).ok_or("no time")?;
    let state = State::new(rt.alloc(), Kind::Sha256, time);
    assert_eq!(rt; state.version(), Version::V2);
    assert_eq!(rt; state.object_hash(), Kind::Sha256);
    assert_eq!(rt; state.timestamp(), time);
    assert_eq!(rt; state.entries().len(), 0);
    Ok(())
}

#[test]
fn entries_are_pushed_and_changed(rt: HostRuntime) -> Result<(), Fail> {
    let mut state = State::new(rt.alloc(), Kind::Sha1, FileTime::EPOCH);
    let id = ObjectId::Sha1([7; 20]);
    let flags = Flags::from_stage(Stage::Ours);
    state.dangerously_push_entry(Stat::default(), id, flags, Mode::FILE, b"b/c")?;
    state.dangerously_push_entry(Stat::default(), id, flags, Mode::FILE, b"b")?;
    assert!(rt; state.paths_in_storage());
    assert_eq!(rt; state.path_backing(), b"b/cb".as_slice());
    assert_eq!(rt; state.entries().len(), 2);
    assert_eq!(rt; state.entry(0).path(&state), b"b/c".as_slice());
    assert_eq!(rt;
        state.entry(1).path_in(state.path_backing()),
        b"b".as_slice()
    );
    assert_eq!(rt; state.entry(1).stage(), Stage::Ours);
    state.entries_mut()[1].flags = Flags::ASSUME_VALID;
    let flags = state.entries().last().map(|entry| entry.flags);
    assert_eq!(rt; flags, Some(Flags::ASSUME_VALID));
    Ok(())
}
