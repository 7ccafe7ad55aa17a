//! Decodes an index from the bytes of a file.

ghost use Rattle.std.specs.Prelude.{◌≡◌, IfOk};
ghost use Rattle.index_model.specs.Answer.{IsAnswer};
ghost use Rattle.index_model.specs.Contents.{ExtensionIdsAreOf};
ghost use Rattle.index_model.specs.DecodeErrors.{ResultIs};
ghost use Rattle.index_state.specs.State.{contents};
ghost use Rattle.index_state.specs.State.{IsWellFormed};

use crate::State;
use entry_fields::entry::FileTime;
use index_decode::decode::from_bytes;
use index_model::Parts;
use index_model::decode::{Error, Options};
use index_parts::hash::{Kind, ObjectId};
use std::alloc::Global;

impl From<Parts> for State {
    ghost from_gives = { λ parts state. state.parts ≡ parts };

    fn from(parts: Parts) -> State {
        State { parts }
    }
}

impl State {
    /// Decodes an index from all bytes of its file. Returns it with the trailer's id, or `None` if the trailer is null.
    /// The state has the given timestamp. The digest isn't computed.
    ///
    /// The paths of the state are in its storage, its ids are of the hash algorithm `object_hash`, and it can be
    /// written. A malformed optional extension isn't an error, and gives no value (gitformat-index, "Extensions").
    ///
    /// # Errors
    ///
    /// The first of these that applies:
    ///
    /// - [`Error::Header`]: the file is too short, or has another signature, an unsupported version, or a count of
    ///   entries that its length can't hold.
    /// - [`Error::OutOfMemory`]: the caller's limit is exceeded.
    /// - [`Error::Entry`]: an entry is invalid.
    /// - [`Error::Extension`]: an extension that must be understood is invalid or unknown.
    /// - [`Error::UnexpectedTrailerLength`]: the trailer has another length than an id.
    /// - [`Error::Verify`]: the trailer isn't the expected id.
    ///
    /// [`Error::Memory`] is an allocation failure. It is never returned instead of the first two.
    pub fn from_bytes(
        alloc: Global,
        data: &[u8],
        timestamp: FileTime,
        object_hash: Kind,
        options: Options,
    ) -> Result<(State, Option<ObjectId>), Error>
        // The state or the first fault that the format gives these bytes.
        ensures answer { ResultIs contents result (IsAnswer object_hash timestamp options «data».now) }
        ensures formed { IfOk result (λ x. IsWellFormed object_hash x.0) }
        ensures extension_ids { IfOk result
            (λ x. ExtensionIdsAreOf object_hash (contents x.0).extensions) }
    {
        let read = from_bytes(alloc, data, timestamp, object_hash, options)?;
        Ok((State { parts: read.parts }, read.checksum))
    }
}
