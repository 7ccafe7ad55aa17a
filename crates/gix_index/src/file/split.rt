//! Decodes an index from the bytes of its file and of the shared index that it links to (gitformat-index, "Split
//! index").

ghost use Rattle.std.specs.Option.{option_map};
ghost use Rattle.std.specs.Path.{path_buf_bytes};
ghost use Rattle.std.specs.Prelude.{◌≡◌, IfErr, IfOk, None};
ghost use Rattle.ext_split.specs.Link.{link_of};
ghost use Rattle.index_state.specs.Edits.{without_link};
ghost use Rattle.index_state.specs.State.{contents, entries_of, storage_of};
ghost use Rattle.gix_index.specs.File.{IsWholeFile};
ghost use Rattle.gix_index.specs.Linked.{Follows};
ghost use Rattle.gix_index.specs.OnDisk.{IsFileInHand, BothBytesCause};

use super::File;
use super::init::{Error, decode_file};
use ext_split::link::Link;
use file_windows::ReadOptions;
use index_state::State;
use std::alloc::Global;
use std::path::PathBuf;

/// Removes the link from a state, and returns it if it is followed: if its id isn't null. Everything else is unchanged.
pub fn take_followed_link(state: &mut State) -> Option<Link>
    ensures given { Follows (contents state.old).extensions.link (option_map link_of result) }
    ensures removed { contents state.new ≡ without_link (contents state.old) }
    ensures entries { entries_of state.new ≡ entries_of state.old }
    ensures storage { storage_of state.new ≡ storage_of state.old }
{
    let Some(link) = state.take_link() else {
        return None;
    };
    if link.shared_index_checksum.is_null() {
        return None;
    }
    Some(link)
}

impl File {
    /// Decodes an index from all bytes of its file and of the shared index that it links to, as [`File::at`] reads both
    /// files. The trailer of the shared index must be the id in the link, or null. If there is no link or its id is
    /// null, the shared bytes aren't read.
    ///
    /// # Errors
    ///
    /// - [`Error::Decode`] and [`Error::Memory`]: those of [`File::decode`], for either file.
    /// - [`Error::LinkExtension`]: the link doesn't match the shared index.
    ///
    /// [`Error::Io`] doesn't occur.
    pub fn decode_split(
        alloc: Global,
        data: &[u8],
        shared: &[u8],
        path: PathBuf,
        reading: ReadOptions,
    ) -> Result<File, Error>
        ensures read { IfOk result
            (IsFileInHand «data».now shared.now reading) }
        ensures whole { IfOk result (IsWholeFile (path_buf_bytes path) reading.object_hash) }
        ensures fault { IfErr result
            (BothBytesCause «data».now shared.now reading) }
    {
        let mut file = decode_file(alloc, data, path, reading)?;
        let Some(link) = take_followed_link(&mut file.state) else {
            return Ok(file);
        };
        let mut options = reading.options;
        options.expected_checksum = Some(link.shared_index_checksum);
        let reading = ReadOptions { options, ..reading };
        let index = decode_file(alloc, shared, PathBuf::new(alloc), reading)?;
        let (shared, _) = index.into_parts();
        link.dissolve_into(alloc, &mut file.state, shared)?;
        Ok(file)
    }
}
