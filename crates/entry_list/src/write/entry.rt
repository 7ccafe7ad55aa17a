//! One entry as bytes.

ghost use Rattle.std.specs.Prelude.{◌≡◌, ◌+◌, ◌<◌, ◌^◌, ◌++◌, ◌∷◌, [], ℕ, List, length, if◌then◌else◌};
ghost use Rattle.entry_fields.specs.Flags.{is_extended};
ghost use Rattle.index_parts.specs.Puts.{Puts};
ghost use Rattle.entry_list.specs.Counted.{counted_len};
ghost use Rattle.entry_list.specs.Entry.{head_bytes};
ghost use Rattle.entry_list.specs.EntryImage.{numbers_of, first_word, head_of, unpadded, padding};
ghost use Rattle.entry_list.specs.EntryImage.{entry_bytes, entry_in, is_removed};
ghost use Rattle.entry_list.specs.Record.{record_in};

use crate::sizes::{ENTRY_ALIGN, FLAGS_LEN, NUMBERS_LEN};
use crate::write::Precision;
use crate::{Entry, PathBacking, Version};
use bitflags::Flags as _;
use entry_fields::entry::{Flags, at_rest};
use index_parts::hash::io::Out;
use std::io;

/// The number that divides an entry's size in versions 2 and 3, as a number of bytes of a file.
const ALIGN: u64 = ENTRY_ALIGN as u64;

/// The NULs that an entry is padded with.
const NULS: [u8; ENTRY_ALIGN] = [0; ENTRY_ALIGN];

/// Returns the 1 to 8 NULs that follow `len` bytes.
fn padding_behind(len: u64) -> &'static [u8]
    ensures { result.now ≡ padding len }
{
    &NULS[..(ALIGN - len % ALIGN) as usize]
}

/// Returns the word if the flags require a second one, or else no bytes.
fn second_of<'a>(flags: Flags, word: &'a [u8; FLAGS_LEN]) -> &'a [u8]
    ensures { result.now ≡ (if is_extended flags.0 then word.now else []) }
{
    if flags.contains(Flags::EXTENDED) {
        return word;
    }
    &[]
}

impl Entry {
    /// Returns whether the entry is marked `REMOVE`. A file leaves it out.
    pub fn is_removed(&self) -> bool
        ensures { result ≡ is_removed self.now.flags.0 }
    {
        self.flags.contains(Flags::REMOVE)
    }

    /// Returns the bytes of the ten numbers before the id.
    #[tactic(auto, unfolding(crate::specs::EntryImage::numbers_of))]
    fn numbers(&self) -> [u8; NUMBERS_LEN]
        ensures { (storage : List ℕ) → result ≡ numbers_of (record_in storage self.now) }
    {
        let [a0, a1, a2, a3] = self.stat.ctime.secs.to_be_bytes();
        let [b0, b1, b2, b3] = self.stat.ctime.nsecs.to_be_bytes();
        let [c0, c1, c2, c3] = self.stat.mtime.secs.to_be_bytes();
        let [d0, d1, d2, d3] = self.stat.mtime.nsecs.to_be_bytes();
        let [e0, e1, e2, e3] = self.stat.dev.to_be_bytes();
        let [f0, f1, f2, f3] = self.stat.ino.to_be_bytes();
        let [g0, g1, g2, g3] = self.mode.bits().to_be_bytes();
        let [h0, h1, h2, h3] = self.stat.uid.to_be_bytes();
        let [i0, i1, i2, i3] = self.stat.gid.to_be_bytes();
        let [j0, j1, j2, j3] = self.stat.size.to_be_bytes();
        [
            a0, a1, a2, a3, b0, b1, b2, b3, c0, c1, c2, c3, d0, d1, d2, d3, e0, e1, e2, e3, f0, f1,
            f2, f3, g0, g1, g2, g3, h0, h1, h2, h3, i0, i1, i2, i3, j0, j1, j2, j3,
        ]
    }

    /// Returns the first word of flags, with the path's length, or 0xfff if the path is longer than that.
    fn first_word(&self, storage: &[u8]) -> u16
        ensures { result ≡ first_word (record_in storage.now self.now) }
    {
        let len = self.path_in(storage).len().min(0xfff) as u16;
        self.flags.to_storage().bits() | len
    }

    /// Returns the number of bytes of the entry up to the end of its path.
    #[tactic(auto, using(crate::proofs::Lengths::length_unpadded))]
    pub(super) fn unpadded_len(&self, storage: &[u8]) -> u64
        ensures len { result ≡ length (unpadded (record_in storage.now self.now)) }
        ensures small { result < 2 ^ 63 + 2 ^ 9 }
    {
        let words = if self.flags.contains(Flags::EXTENDED) {
            2 * FLAGS_LEN
        } else {
            FLAGS_LEN
        };
        let fixed = (NUMBERS_LEN + words) as u64;
        fixed + self.id.as_bytes().len() as u64 + self.path_in(storage).len() as u64
    }

    /// Returns the number of bytes of the entry in a file of version 2 or 3, with its padding.
    fn padded_len(&self, storage: &[u8]) -> u64
        ensures len { result ≡ length (entry_bytes (record_in storage.now self.now)) }
        ensures small { result < 2 ^ 63 + 2 ^ 10 }
    {
        let len = self.unpadded_len(storage);
        len - len % ALIGN + ALIGN
    }

    /// Returns the number of bytes of the entry in a file of this version, after the path `previous`: exact, or an
    /// upper bound.
    pub(super) fn counted_len(
        &self,
        precision: Precision,
        version: Version,
        previous: &[u8],
        storage: &[u8],
    ) -> u64
        ensures len { result ≡ counted_len precision version previous.now
            (record_in storage.now self.now) }
        ensures small { result < 2 ^ 63 + 2 ^ 10 }
    {
        match version {
            Version::V2 | Version::V3 => self.padded_len(storage),
            Version::V4 => match precision {
                Precision::Bound => self.most_delta_len(storage),
                Precision::Exact => self.delta_len(previous, storage),
            },
        }
    }

    /// Writes the parts of the entry before its path.
    #[tactic(auto, using(crate::proofs::Lengths::pieces_are))]
    pub(super) fn put_head<W: Out>(&self, storage: &[u8], out: &mut W) -> io::Result<()>
        ensures { Puts W.Out out.old out.new result
            (head_bytes (head_of (record_in storage.now self.now))) }
    {
        let numbers = self.numbers();
        let first = self.first_word(storage).to_be_bytes();
        let extended = at_rest::FlagsExtended::from_flags(self.flags)
            .bits()
            .to_be_bytes();
        let second = second_of(self.flags, &extended);
        out.put_each(&[&numbers, self.id.as_bytes(), &first, second])
    }

    /// Writes the entry up to the end of its path, and then the bytes `end`.
    fn put_with<W: Out>(&self, storage: &[u8], end: &[u8], out: &mut W) -> io::Result<()>
        ensures { Puts W.Out out.old out.new result
            (unpadded (record_in storage.now self.now) ++ end.now) }
    {
        self.put_head(storage, out)?;
        out.put_each(&[self.path_in(storage), end])
    }

    /// Writes the entry as in a file of version 2 or 3, with its padding.
    fn put_padded<W: Out>(&self, storage: &[u8], out: &mut W) -> io::Result<()>
        ensures { Puts W.Out out.old out.new result
            (entry_bytes (record_in storage.now self.now)) }
    {
        let end = padding_behind(self.unpadded_len(storage));
        self.put_with(storage, end, out)
    }

    /// Writes the entry as in a file of this version, after the path `previous`.
    pub(super) fn put<W: Out>(
        &self,
        version: Version,
        previous: &[u8],
        storage: &[u8],
        out: &mut W,
    ) -> io::Result<()>
        ensures { Puts W.Out out.old out.new result
            (entry_in version previous.now (record_in storage.now self.now)) }
    {
        match version {
            Version::V2 | Version::V3 => self.put_padded(storage, out),
            Version::V4 => self.put_delta(previous, storage, out),
        }
    }

    /// Writes the entry up to the end of its path, as in version 2 or 3, and then one NUL instead of the padding
    /// (gitformat-index, "Index entry"). The entry's path is in the storage of `state`.
    ///
    /// An error occurs only if the writer fails. It then took a prefix of the bytes. No memory is allocated.
    pub fn write_to<W: Out, S: PathBacking>(&self, out: &mut W, state: &S) -> io::Result<()>
        ensures { Puts W.Out out.old out.new result
            (unpadded (record_in (S.paths state.now) self.now) ++ 0 ∷ []) }
    {
        self.put_with(state.backing(), b"\0", out)
    }
}
