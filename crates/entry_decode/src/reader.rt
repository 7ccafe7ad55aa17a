//! A reader that returns the entries at the start of bytes as borrowed pieces, one after another.

ghost use Rattle.std.specs.Prelude.{◌≡◌, ◌≤◌, ◌+◌, length, None, unwrap_or, IfNone, IfSome};
ghost use Rattle.std.specs.Option.{option_map};
ghost use Rattle.index_parts.specs.Id.{id_kind};
ghost use Rattle.entry_decode.specs.Reader.{LeftToRead, Lends, LendsNone};

use crate::entry::{Lent, entry_of};
use entry_list::Version;
use index_parts::hash::Kind;
use std::marker::Model;

/// A reader of the entries at the start of bytes. Use it to step over a file's entries. Each step returns the next one,
/// and [`EntryReader::rest`] returns the bytes after the last one at any time.
#[derive(Drop)]
pub struct EntryReader<'a> {
    version: Version,
    kind: Kind,
    room: Option<usize>,
    rest: &'a [u8],
}

impl<'a> Model for EntryReader<'a> {
    ghost Value = { LeftToRead };

    ghost view = { λ r. record {
      version = r.version;
      kind = r.kind;
      room = r.room;
      rest = r.rest.now;
    } };

    ghost invariant = { λ r. unwrap_or r.room 0 + length r.rest.now ≤ 0xffffffffffffffff };
}

impl<'a> EntryReader<'a> {
    /// Returns a reader of the entries of a version at the start of these bytes. No entry comes before them.
    pub fn new(version: Version, kind: Kind, bytes: &'a [u8]) -> EntryReader<'a>
        ensures { result
            ≡ record { version = version; kind = kind; room = None; rest = bytes.now } }
    {
        EntryReader {
            version,
            kind,
            room: None,
            rest: bytes,
        }
    }

    /// Returns a reader of the entries of a version at the start of these bytes. The path of the entry before them is
    /// given; None if no entry comes before.
    pub fn behind(
        version: Version,
        kind: Kind,
        previous: Option<&[u8]>,
        bytes: &'a [u8],
    ) -> EntryReader<'a>
        ensures { result ≡ record {
          version = version;
          kind = kind;
          room = option_map (λ path. length path.now) previous.entry;
          rest = bytes.now;
        } }
    {
        let room = match previous {
            Some(path) => Some(path.len()),
            None => None,
        };
        EntryReader {
            version,
            kind,
            room,
            rest: bytes,
        }
    }

    /// Returns the bytes after the entries that were returned.
    pub fn rest(&self) -> &'a [u8]
        ensures { result.now ≡ self.now.rest }
    {
        self.rest
    }

    /// Returns the entry at the start of the bytes, and steps over it. If the bytes begin with no entry, the result is
    /// None, and the reader is unchanged.
    #[inline(always)]
    pub fn next(&mut self) -> Option<Lent<'a>>
        ensures lent { IfSome result (λ lent. Lends self.old lent self.new) }
        ensures none { IfNone result (LendsNone self.old self.new) }
        ensures shared { IfSome result (λ lent. lent.shared ≤ unwrap_or self.old.room 0) }
        ensures kind { IfSome result (λ lent. id_kind lent.entry.id ≡ self.old.kind) }
        ensures len { IfSome result
            (λ lent. lent.shared + length lent.path.now ≤ 0xffffffffffffffff) }
    {
        let (lent, rest) = entry_of(self.version, self.kind, self.room, self.rest)?;
        self.room = Some(lent.shared + lent.path.len());
        self.rest = rest;
        Some(lent)
    }
}
