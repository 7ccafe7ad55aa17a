//! Creates new indexes.

ghost use Rattle.std.specs.Prelude.{◌≡◌};
ghost use Rattle.index_state.specs.Edits.{empty_contents, with_records};
ghost use Rattle.index_state.specs.State.{PathsInStorage, contents, storage_of};

pub mod from_tree;

use entry_fields::entry::FileTime;
use entry_list::Version;
use entry_list::list::EntryList;
use index_model::Parts;
use index_model::extension::Outcome;
pub use index_parts::check::ComponentCheck;
use index_parts::hash::Kind;
use index_state::State;

/// Returns an index of version 2 with the entries of `list`, in that order, for ids of the hash algorithm
/// `object_hash`. It has no extension, and its timestamp is `now`.
///
/// The entries and the storage of their paths are moved out of the list, so no memory is allocated. The index can be
/// written to a file under these conditions: each id is of `object_hash`, and no path of 4095 bytes or more contains a
/// NUL. [`State::is_storable`] tests this.
pub fn from_entries(list: EntryList, object_hash: Kind, now: FileTime) -> State
    ensures entries { contents result
        ≡ with_records (empty_contents object_hash now) list.records }
    ensures storage { storage_of result ≡ list.storage }
    ensures placed { PathsInStorage result }
{
    let (entries, path_backing) = list.into_parts();
    State::from(Parts {
        object_hash,
        timestamp: now,
        version: Version::V2,
        entries,
        path_backing,
        extensions: Outcome::none(),
        extensions_fit: true,
    })
}
