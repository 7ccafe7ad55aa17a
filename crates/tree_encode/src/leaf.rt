//! The index entries that a tree can have.

ghost use Rattle.std.specs.Prelude.{◌≡◌, ◌≢◌, ◌<◌, IsTrue, false, length};
ghost use Rattle.std.specs.List.{HoldsAt};
ghost use Rattle.std.specs.Option.{option_map};
ghost use Rattle.index_parts.specs.declared.object.tree.EntryKind.TheVariants as kinds;
ghost use Rattle.entry_list.specs.EntryImage.{is_removed};
ghost use Rattle.tree_encode.specs.Staged.{is_intended, staged_entry, staged_of};

use bitflags::Flags as _;
use entry_fields::entry::Flags;
use entry_list::Entry;
use entry_list::slice::EntrySlice;
use index_parts::hash::ObjectId;
use index_parts::object::tree::EntryKind;

/// What an index entry stages: a file, a link, a commit or, in a sparse index, a directory. The path of such a sparse
/// directory has a slash at the end.
#[derive(Clone, Copy)]
pub struct Leaf<'a> {
    pub(crate) path: &'a [u8],
    pub(crate) kind: EntryKind,
    pub(crate) id: ObjectId,
    pub(crate) later: bool,
}

/// Returns whether `kind` is that of a directory.
pub(crate) fn is_tree(kind: EntryKind) -> bool
    ensures yes { IsTrue result → kind ≡ kinds.Tree }
    ensures no { result ≡ false → kind ≢ kinds.Tree }
{
    match kind {
        EntryKind::Tree => true,
        EntryKind::Blob => false,
        EntryKind::BlobExecutable => false,
        EntryKind::Link => false,
        EntryKind::Commit => false,
    }
}

/// Returns whether an entry has the flag `REMOVE`, and so is left out when the index is written.
pub(crate) fn is_removed(entry: &Entry) -> bool
    ensures { result ≡ is_removed entry.now.flags.0 }
{
    entry.flags.contains(Flags::REMOVE)
}

/// Returns whether an entry is an intent-to-add entry.
fn is_intended(entry: &Entry) -> bool
    ensures { result ≡ is_intended entry.now.flags.0 }
{
    entry.flags.contains(Flags::INTENT_TO_ADD)
}

/// Returns what the entry at index `place` stages. Returns `None` if it has the flag `REMOVE`, or if no tree has its
/// mode.
pub(crate) fn leaf_at<'a>(entries: &EntrySlice<'a>, place: usize) -> Option<Leaf<'a>>
    requires { place < length entries.now }
    ensures { HoldsAt (λ r. option_map staged_of result ≡ staged_entry r) entries.now place }
{
    let entry = entries.entry(place);
    if is_removed(entry) {
        return None;
    }
    let mode = entry.mode.to_tree_entry_mode()?;
    Some(Leaf {
        path: entries.path(place),
        kind: mode.kind(),
        id: entry.id,
        later: is_intended(entry),
    })
}
