//! Tests of digests of pieces, and of the writers that hash.

use gix_index::hash::io::{Out, Plain, Write};
use gix_index::hash::{Hasher, Kind, ObjectId, digest};
use std::io;
use std::io::ErrorKind;

/// Returns the digest of a message that is hashed in pieces of `size` bytes.
fn digest_in_pieces(kind: Kind, message: &[u8], size: usize) -> ObjectId {
    let mut hasher = Hasher::new(kind);
    for piece in message.chunks(size.max(1)) {
        hasher.update(piece);
    }
    hasher.finalize()
}

#[test]
fn pieces_have_the_digest_of_the_whole(rt: HostRuntime) {
    for kind in [Kind::Sha1, Kind::Sha256] {
        for size in [1, 5, 64] {
            let pieces = digest_in_pieces(kind, &[7; 150], size);
            assert_eq!(rt; pieces, digest(kind, &[7; 150]), "pieces of {size}");
        }
    }
}

#[test]
fn kinds_have_a_length_and_a_null_id(rt: HostRuntime) {
    for (kind, len) in [(Kind::Sha1, 20), (Kind::Sha256, 32)] {
        assert_eq!(rt; kind.len_in_bytes(), len);
        assert_eq!(rt; kind.null().as_bytes(), &[0; 32][..len]);
        assert!(rt; kind.null().is_null());
    }
}

/// A writer that takes at most `step` bytes in each call, and fails if it has taken `room` bytes.
#[derive(Drop)]
struct Slow {
    taken: Vec<u8>,
    step: usize,
    room: usize,
}

impl io::Write for Slow {
    fn write(&mut self, piece: &[u8]) -> io::Result<usize> {
        let room = self.room.saturating_sub(self.taken.len());
        if room == 0 {
            return Err(io::Error::from(ErrorKind::StorageFull));
        }
        let count = piece.len().min(self.step).min(room);
        self.taken.extend_from_slice(&piece[..count])?;
        Ok(count)
    }

    fn flush(&mut self) -> io::Result<()> {
        Ok(())
    }
}

#[test]
fn a_plain_writer_takes_a_front(rt: HostRuntime) {
    for (step, room, want) in [
        (1, 3, b"abc".as_slice()),
        (2, 9, b"abc".as_slice()),
        (0, 3, b"".as_slice()),
        (1, 0, b"".as_slice()),
        (1, 1, b"a".as_slice()),
        (1, 2, b"ab".as_slice()),
        (2, 2, b"ab".as_slice()),
    ] {
        let taken = Vec::new(rt.alloc());
        let mut out = Plain::new(Slow { taken, step, room });
        let is_whole = out.put(b"abc").is_ok();
        assert_eq!(rt;
            out.inner.taken.as_slice(),
            want,
            "{step} a call up to {room}"
        );
        assert_eq!(rt; is_whole, want.len() == 3, "{step} a call up to {room}");
        assert_eq!(rt;
            out.has_failed(),
            want.len() < 3,
            "{step} a call up to {room}"
        );
    }
}

#[test]
fn a_writer_that_failed_once_has_failed(rt: HostRuntime) {
    let taken = Vec::new(rt.alloc());
    let mut out = Plain::new(Slow {
        taken,
        step: 1,
        room: 0,
    });
    for (room, is_whole, has_failed) in [(1, true, false), (1, false, true), (2, true, true)] {
        out.inner.room = room;
        assert_eq!(rt; out.put(b"a").is_ok(), is_whole, "up to {room}");
        assert_eq!(rt; out.has_failed(), has_failed, "up to {room}");
    }
}

#[test]
fn whole_pieces_are_hashed(rt: HostRuntime) {
    for (kind, room, hashed) in [
        (Kind::Sha1, 0, b"".as_slice()),
        (Kind::Sha256, 2, b""),
        (Kind::Sha1, 3, b"abc"),
        (Kind::Sha256, 4, b"abc"),
        (Kind::Sha256, 5, b"abc"),
    ] {
        let taken = Vec::new(rt.alloc());
        let mut plain = Plain::new(Slow {
            taken,
            step: 2,
            room,
        });
        let mut out = Write::new(&mut plain, kind);
        let is_whole = out.put_each(&[b"", b"abc", b"def"]).is_ok();
        assert!(rt; !is_whole && out.has_failed(), "with room for {room}");
        assert_eq!(rt; out.hash.finalize(), digest(kind, hashed));
        assert_eq!(rt; plain.inner.taken.len(), room);
    }
}
