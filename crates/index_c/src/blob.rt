//! The id of a file's bytes.

ghost use Rattle.std.specs.Prelude.{◌≡◌};
ghost use Rattle.index_c.specs.BlobIds.{GivesBlobId, blob_id};

use crate::number::kind_of;
use crate::status::{DONE, WRONG_NUMBER};
use capi_table::row::padded_id;
use gix_index::hash::{Hasher, Kind, ObjectId};
use itoa::Buffer;

/// Returns the id of the blob with these bytes.
#[tactic(auto, unfolding(crate::specs::BlobIds::blob_id))]
fn id_of(kind: Kind, bytes: &[u8]) -> ObjectId
    ensures { result ≡ blob_id kind bytes.now }
{
    let mut buffer = Buffer::new();
    let mut hasher = Hasher::new(kind);
    hasher.update(b"blob ");
    hasher.update(buffer.format(bytes.len()).as_bytes());
    hasher.update(b"\0");
    hasher.update(bytes);
    hasher.finalize()
}

/// Writes the id that git has for a file of these bytes, followed by zeros if it is of SHA-1. The bytes are those of
/// the blob: the caller applies filters and line ends to a file in the work tree.
///
/// - `DONE`: the id is written.
/// - `WRONG_NUMBER`: the hash algorithm is invalid, and the id is as it was.
#[unsafe(no_mangle)]
pub extern "C" fn gix_index_blob_id(kind: u32, bytes: &[u8], id: &mut [u8; 32]) -> u32
    ensures { GivesBlobId kind bytes.now id.old id.new result }
{
    let Some(kind) = kind_of(kind) else {
        return WRONG_NUMBER;
    };
    *id = padded_id(&id_of(kind, bytes));
    DONE
}
