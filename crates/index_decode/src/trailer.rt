//! The id at the end of a file (gitformat-index, "Hash checksum").

ghost use Rattle.std.specs.Prelude.{◌≡◌, length};
ghost use Rattle.index_parts.specs.Id.{id_len};
ghost use Rattle.index_model.specs.Answer.{trailer_checksum};

use index_parts::hash::{Kind, ObjectId};
use index_parts::read;

/// Returns the id in a trailer, or `None` if all its bytes are zero: such a file has no checksum.
pub fn checksum(kind: Kind, trailer: &[u8]) -> Option<ObjectId>
    requires { length trailer.now ≡ id_len kind }
    ensures { result ≡ trailer_checksum kind trailer.now }
{
    if read::is_null(trailer) {
        return None;
    }
    Some(ObjectId::of_kind(kind, trailer))
}
