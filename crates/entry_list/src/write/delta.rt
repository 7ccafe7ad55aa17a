//! One entry as bytes of version 4: its path as a difference to the path before it (gitformat-index, "Index entry").

ghost use Rattle.std.specs.Prelude.{◌≡◌, ◌-◌, ◌+◌, ◌<◌, ◌^◌, length};
ghost use Rattle.index_parts.specs.Puts.{Puts};
ghost use Rattle.entry_list.specs.EntryImage.{delta_bytes, unpadded};
ghost use Rattle.entry_list.specs.Record.{record_in};

use crate::paths::shared_len;
use crate::{Entry, PathBacking};
use index_parts::encode;
use index_parts::encode::MAX_OFFSET_LEN;
use index_parts::hash::io::Out;
use std::io;

impl Entry {
    /// Returns the number of bytes of the entry in version 4, after the path `previous`.
    pub(super) fn delta_len(&self, previous: &[u8], storage: &[u8]) -> u64
        ensures len { result ≡ length (delta_bytes previous.now (record_in storage.now self.now)) }
        ensures small { result < 2 ^ 63 + 2 ^ 10 }
    {
        let shared = shared_len(previous, self.path_in(storage));
        let (bytes, start) = encode::offset((previous.len() - shared) as u64);
        let (_, number) = bytes.split_at(start);
        self.unpadded_len(storage) - shared as u64 + number.len() as u64 + 1
    }

    /// Returns an upper bound of the number of bytes of the entry in version 4, after any path.
    pub(super) fn most_delta_len(&self, storage: &[u8]) -> u64
        ensures len { result ≡ length (unpadded (record_in storage.now self.now)) + 11 }
        ensures small { result < 2 ^ 63 + 2 ^ 10 }
    {
        self.unpadded_len(storage) + MAX_OFFSET_LEN as u64 + 1
    }

    /// Writes the entry as in version 4, after the path `previous`.
    pub(super) fn put_delta<W: Out>(
        &self,
        previous: &[u8],
        storage: &[u8],
        out: &mut W,
    ) -> io::Result<()>
        ensures { Puts W.Out out.old out.new result
            (delta_bytes previous.now (record_in storage.now self.now)) }
    {
        let path = self.path_in(storage);
        let shared = shared_len(previous, path);
        let (_, tail) = path.split_at(shared);
        let (bytes, start) = encode::offset((previous.len() - shared) as u64);
        let (_, number) = bytes.split_at(start);
        self.put_head(storage, out)?;
        out.put_each(&[number, tail, b"\0"])
    }

    /// Writes the entry as in a file of version 4, after the path `previous`, which is empty before the first entry.
    ///
    /// The path is written as its difference to `previous` (gitformat-index, "Index entry"):
    ///
    /// - as a varint, the number of bytes of `previous` after the prefix that both paths begin with
    /// - the bytes of the entry's path after that prefix
    /// - one NUL
    ///
    /// The entry's path is in the storage of `state`. It may have any bytes, but a path with a NUL is read as a
    /// different path.
    ///
    /// An error occurs only if the writer fails. It then took a prefix of the bytes. No memory is allocated.
    pub fn write_delta_to<W: Out, S: PathBacking>(
        &self,
        out: &mut W,
        state: &S,
        previous: &[u8],
    ) -> io::Result<()>
        ensures { Puts W.Out out.old out.new result
            (delta_bytes previous.now (record_in (S.paths state.now) self.now)) }
    {
        self.put_delta(previous, state.backing(), out)
    }
}
