//! The bytes and the id of a tree object.

ghost use Rattle.std.specs.Prelude.{◌≡◌, ◌++◌, OnOk};
ghost use Rattle.tree_encode.specs.Objects.{tree_mode_text, tree_entry_bytes, tree_id};

use index_parts::hash::{Hasher, Kind, ObjectId};
use index_parts::object::tree::EntryKind;
use itoa::Buffer;
use std::alloc::AllocError;

/// Returns the mode in octal digits.
fn tree_mode_text(kind: EntryKind) -> &'static [u8]
    ensures { result.now ≡ tree_mode_text kind }
{
    match kind {
        EntryKind::Tree => b"40000",
        EntryKind::Blob => b"100644",
        EntryKind::BlobExecutable => b"100755",
        EntryKind::Link => b"120000",
        EntryKind::Commit => b"160000",
    }
}

/// Appends an entry to the bytes of a tree object.
pub(crate) fn push_entry(
    bytes: &mut Vec<u8>,
    name: &[u8],
    kind: EntryKind,
    id: &ObjectId,
) -> Result<(), AllocError>
    ensures { OnOk result (bytes.new.items
        ≡ bytes.old.items ++ tree_entry_bytes name.now kind id.now) }
{
    bytes.extend_from_slice(tree_mode_text(kind))?;
    bytes.extend_from_slice(b" ")?;
    bytes.extend_from_slice(name)?;
    bytes.extend_from_slice(b"\0")?;
    bytes.extend_from_slice(id.as_bytes())
}

/// Returns the id of the tree object with these bytes.
#[tactic(auto, unfolding(crate::specs::Objects::tree_id))]
pub(crate) fn tree_id(kind: Kind, bytes: &[u8]) -> ObjectId
    ensures { result ≡ tree_id kind bytes.now }
{
    let mut buffer = Buffer::new();
    let mut hasher = Hasher::new(kind);
    hasher.update(b"tree ");
    hasher.update(buffer.format(bytes.len()).as_bytes());
    hasher.update(b"\0");
    hasher.update(bytes);
    hasher.finalize()
}
