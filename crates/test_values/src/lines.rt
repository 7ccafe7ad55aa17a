//! Tests of the JSON lines of an index, which have one object for each part.

use ext_small::marks::Marks;
use gix_index::State;
use gix_index::entry::{FileTime, Flags, Mode, Stage, Stat};
use gix_index::hash::io::Plain;
use gix_index::hash::{Kind, ObjectId};
use std::alloc::Global;
use std::io;
use std::test::Fail;
use view_json::write_json_lines;

/// The lines of an index with the entry `a` and without extensions.
const LINES: &[u8] = b"{\"version\":2,\"checksum\":null,\"is_sparse\":false,\"num_entries\":1}\n\
    {\"entry\":{\"path\":\"a\",\"id\":\"1111111111111111111111111111111111111111\",\
    \"mode\":33188,\"stage\":0,\"flags\":0,\
    \"stat\":{\"mtime\":{\"secs\":0,\"nsecs\":0},\"ctime\":{\"secs\":0,\"nsecs\":0},\
    \"dev\":0,\"ino\":0,\"uid\":0,\"gid\":0,\"size\":0}}}\n";

/// Returns the lines of a state.
fn lines_of(alloc: Global, state: &State) -> io::Result<Vec<u8>> {
    let marks = Marks {
        table: None,
        end: None,
    };
    let mut out = Plain::new(Vec::new(alloc));
    write_json_lines(alloc, state, None, &marks, &mut out)?;
    Ok(out.inner)
}

#[test]
fn each_part_has_a_line(rt: HostRuntime) -> Result<(), Fail> {
    let mut state = State::new(rt.alloc(), Kind::Sha1, FileTime::EPOCH);
    let id = ObjectId::Sha1([0x11; 20]);
    let flags = Flags::from_stage(Stage::Unconflicted);
    state.dangerously_push_entry(Stat::default(), id, flags, Mode::FILE, b"a")?;
    assert_eq!(rt; lines_of(rt.alloc(), &state)?.as_slice(), LINES);
    Ok(())
}
