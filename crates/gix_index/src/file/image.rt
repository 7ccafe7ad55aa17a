//! Writes a `File`: the state's bytes, followed by their digest.

ghost use Rattle.std.specs.Prelude.{◌≡◌, ◌↔◌, Err, IfOk, OnOk};
ghost use Rattle.gix_index.specs.File.{state_of};
ghost use Rattle.gix_index.specs.WrittenFile.{PutsBody, image_of, written_id, written_version};
ghost use Rattle.index_model.specs.Storable.{IsWritable};
ghost use Rattle.index_model.specs.Writing.{RefusedWith, Writes};
ghost use Rattle.index_parts.specs.Taking.{Hashes};
ghost use Rattle.index_state.specs.State.{contents};

use super::File;
use entry_list::Version;
use index_model::write::{Error, Options};
use index_parts::hash::ObjectId;
use index_parts::hash::io::{Out, Write};
use index_state::State;

/// Writes everything except the trailer. Returns the id for the trailer: the digest of the written bytes, or the null
/// id.
fn put_body<W: Out>(
    state: &State,
    out: &mut W,
    options: Options,
) -> Result<(Version, ObjectId), Error>
    ensures { PutsBody W.taken W.failed W.hashed W.loan out.old out.new result
        (contents state.now) options }
{
    let kind = state.object_hash();
    if options.skip_hash {
        return Ok((state.write_to(out, options)?, kind.null()));
    }
    let mut hashing = Write::new(out, kind);
    let result = state.write_to(&mut hashing, options);
    let Write { inner, hash } = hashing;
    // No effect at run time. The proof reads what `out` holds from this use of `inner`.
    let _ = &*inner;
    let version = result?;
    Ok((version, hash.finalize()))
}

impl File {
    /// Writes the index as the bytes of a file: what [`State::write_to`] writes, then its digest. With `skip_hash`
    /// zeros are written instead of the digest.
    ///
    /// Returns the version that was written, and the digest or the null id. The checksum of this `File` is unchanged.
    /// No memory is allocated.
    ///
    /// # Errors
    ///
    /// - [`Error::TooManyEntries`], [`Error::NulInPath`] and [`Error::TooLarge`]: those of [`State::write_to`]. No byte
    ///   is written.
    /// - [`Error::Io`]: the writer failed, after it took a prefix of the bytes.
    pub fn write_to<W: Out>(
        &self,
        out: &mut W,
        options: Options,
    ) -> Result<(Version, ObjectId), Error>
        ensures version { IfOk result (λ x. x.0 ≡ written_version self.now options) }
        ensures id { IfOk result (λ x. x.1 ≡ written_id self.now options) }
        ensures bytes { Writes W.taken W.failed out.old out.new result (image_of self.now options) }
        ensures too_many { (result ≡ Err Error.TooManyEntries)
            ↔ RefusedWith (contents (state_of self.now)) options Error.TooManyEntries }
        ensures nul_in_path { (result ≡ Err Error.NulInPath)
            ↔ RefusedWith (contents (state_of self.now)) options Error.NulInPath }
        ensures too_large { (result ≡ Err Error.TooLarge)
            ↔ RefusedWith (contents (state_of self.now)) options Error.TooLarge }
        ensures writable { OnOk result (IsWritable (contents (state_of self.now)) options) }
        ensures hashed { OnOk result (Hashes W.hashed out.old out.new (image_of self.now options)) }
        ensures loan { W.loan out.new ≡ W.loan out.old }
    {
        let (version, id) = put_body(&self.state, out, options)?;
        out.put(id.as_bytes())?;
        Ok((version, id))
    }
}
