//! Decodes an index from the bytes of its file without entries, for callers that store the entries themselves.

ghost use Rattle.std.specs.Prelude.{IfErr, IfOk};
ghost use Rattle.gix_index.specs.Outlined.{IsOutlined};
ghost use Rattle.gix_index.specs.OnDisk.{IsFileFault, NeedsIntact};
ghost use Rattle.index_state.specs.Outlines.{OutlineIdsAreOf};

use super::File;
use super::init::{Error, check};
use entry_fields::entry::FileTime;
use index_decode::decode::{ReadAs, declared_in};
use index_model::decode;
use index_parts::hash::Kind;
pub use index_state::outline::Outline;
use index_state::outline::outline_behind_header;
use std::alloc::Global;

impl File {
    /// Decodes all bytes of a file as [`File::decode`] does, except the entries. It only counts them and the bytes of
    /// their paths, so no memory is allocated for entries. The first error is that of [`File::decode`].
    ///
    /// A caller reads the entries from [`Outline::entries`] with [`crate::decode::entry::entry_of`]. All of them are
    /// valid.
    ///
    /// The errors are those of [`File::decode`]. [`Error::Memory`] is also returned if the paths have 2^64 bytes or
    /// more together.
    pub fn outline(
        alloc: Global,
        data: &[u8],
        object_hash: Kind,
        skip_hash: bool,
        timestamp: FileTime,
        options: decode::Options,
    ) -> Result<Outline<'_>, Error>
        ensures outlined { IfOk result
            (IsOutlined skip_hash object_hash timestamp options «data».now) }
        ensures fault { IfErr result (IsFileFault skip_hash object_hash timestamp options
            «data».now) }
        ensures intact { IfErr result (NeedsIntact skip_hash object_hash «data».now) }
        ensures extension_ids { IfOk result
            (OutlineIdsAreOf object_hash) }
    {
        check(data, None, object_hash, skip_hash)?;
        let declared = declared_in(data, object_hash, options)?;
        let read_as = ReadAs {
            timestamp,
            object_hash,
            version: declared.version,
            options,
        };
        Ok(outline_behind_header(alloc, read_as, declared.count, declared.rest)?)
    }
}
