//! Reading a split index with the shared index that it links to, and both into a caller's table.

ghost use Rattle.std.specs.Prelude.{◌≡◌};
ghost use Rattle.gix_index.specs.Link.{link_of};
ghost use Rattle.gix_index.specs.State.{PathsInStorage, contents};
ghost use Rattle.gix_index.specs.Storable.{IsStorable};
ghost use Rattle.capi_table.specs.Filling.{FillsBoth};
ghost use Rattle.capi_table.specs.States.{JoinsBy, ReadsBoth};

use crate::fault::{Failure, Whose};
use crate::read::{Sizes, Unread, index_of, table_of};
use crate::row::Row;
use gix_index::extension::Link;
use gix_index::hash::Kind;
use gix_index::{State, file};
use std::alloc::Global;

/// Returns a split index that was read, joined to the shared index of these bytes by the link that it had. An error is
/// why it can't be joined.
fn join(
    alloc: Global,
    mut split: State,
    link: Link,
    shared: &[u8],
    kind: Kind,
    skip_hash: bool,
) -> Result<State, Failure>
    requires placed { PathsInStorage split }
    requires storable { IsStorable (contents split) }
    requires kind { (contents split).kind ≡ kind }
    ensures { JoinsBy skip_hash kind (link_of link) shared.now (contents split) result }
{
    let id = link.shared_index_checksum;
    let index = match index_of(alloc, shared, kind, skip_hash, Some(id)) {
        Ok(state) => state,
        Err(error) => {
            return Err(Failure {
                error,
                whose: Whose::Shared,
            });
        }
    };
    match link.dissolve_into(alloc, &mut split, index) {
        Ok(()) => Ok(split),
        Err(e) => Err(Failure {
            error: file::init::Error::from(e),
            whose: Whose::Own,
        }),
    }
}

/// Returns the index of these bytes, joined to the shared index that they link to. An error is why there is none. If
/// they link to no shared index, or to one without an id, the shared bytes aren't read.
pub fn both_of(
    alloc: Global,
    bytes: &[u8],
    shared: &[u8],
    kind: Kind,
    skip_hash: bool,
) -> Result<State, Failure>
    ensures { ReadsBoth skip_hash kind bytes.now shared.now result }
{
    let mut split = match index_of(alloc, bytes, kind, skip_hash, None) {
        Ok(state) => state,
        Err(error) => {
            return Err(Failure {
                error,
                whose: Whose::Own,
            });
        }
    };
    let Some(link) = file::take_followed_link(&mut split) else {
        return Ok(split);
    };
    join(alloc, split, link, shared, kind, skip_hash)
}

/// Reads bytes, with those of the shared index that they link to, into a table. If they link to none, the shared bytes
/// aren't read.
pub fn read_split(
    alloc: Global,
    bytes: &[u8],
    shared: &[u8],
    kind: Kind,
    skip_hash: bool,
    rows: &mut [Row],
    paths: &mut [u8],
) -> Result<Sizes, Unread>
    ensures { FillsBoth skip_hash kind bytes.now shared.now rows.old rows.new paths.old paths.new
        result }
{
    match both_of(alloc, bytes, shared, kind, skip_hash) {
        Ok(state) => table_of(&state, rows, paths),
        Err(failure) => Err(Unread::Failed(failure)),
    }
}
