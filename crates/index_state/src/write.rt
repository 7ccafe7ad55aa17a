//! Writes an index as the bytes of a file.

ghost use Rattle.std.specs.Prelude.{◌≡◌, ◌↔◌, IfOk, OnOk};
ghost use Rattle.index_parts.specs.Taking.{Hashes};
ghost use Rattle.index_model.specs.Image.{body, image_version};
ghost use Rattle.index_model.specs.Storable.{IsWritable};
ghost use Rattle.index_model.specs.Writing.{RefusedWith, Writes};
ghost use Rattle.index_state.specs.State.{contents};

use crate::State;
use entry_list::Version;
use index_encode::write_to;
use index_model::write::{Error, Options};
use index_parts::hash::io::Out;

impl State {
    /// Writes the index as the bytes of a file, except the trailer, and returns the version that was written. The
    /// version is 4 if it is chosen. Otherwise it is 3 if an entry has `EXTENDED`, even one that is omitted, or else 2
    /// (gitformat-index, "The Git index file has the following format").
    ///
    /// Entries marked `REMOVE` are omitted, and the header doesn't count them. The others keep their order and the 32
    /// bits of their mode. Of their flags the bits are written that a file stores. Their ids are written with their own
    /// bytes, whatever their hash algorithm.
    ///
    /// The extensions follow:
    ///
    /// - the cache tree, if there is one and the options ask for it,
    /// - the mark of a sparse index,
    /// - after one of these an end marker, if there are entries, even omitted ones, and the options ask for it.
    ///
    /// With `Extensions::Kept` all extensions that still match are written, and an end marker if there was one. If an
    /// entry is omitted, the cache tree, the untracked cache and a monitor's answer are not written. No memory is
    /// allocated.
    ///
    /// # Errors
    ///
    /// - [`Error::TooManyEntries`], then [`Error::NulInPath`], then [`Error::TooLarge`]: returned before any byte is
    ///   written.
    /// - [`Error::Io`]: the writer failed, after it took a prefix of the bytes.
    pub fn write_to<W: Out>(&self, out: &mut W, options: Options) -> Result<Version, Error>
        ensures version { IfOk result
            (λ version. version ≡ image_version (contents self.now) options) }
        ensures bytes { Writes W.taken W.failed out.old out.new result
            (body (contents self.now) options) }
        ensures hashed { OnOk result
            (Hashes W.hashed out.old out.new (body (contents self.now) options)) }
        ensures loan { W.loan out.new ≡ W.loan out.old }
        ensures too_many { (result ≡ Err Error.TooManyEntries)
            ↔ RefusedWith (contents self.now) options Error.TooManyEntries }
        ensures nul_in_path { (result ≡ Err Error.NulInPath)
            ↔ RefusedWith (contents self.now) options Error.NulInPath }
        ensures too_large { (result ≡ Err Error.TooLarge)
            ↔ RefusedWith (contents self.now) options Error.TooLarge }
        ensures writable { OnOk result (IsWritable (contents self.now) options) }
    {
        write_to(&self.parts, out, options)
    }
}
