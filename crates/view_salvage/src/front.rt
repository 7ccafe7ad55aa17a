//! Reads the entries at the front of a file, with their positions.

ghost use Rattle.std.specs.Prelude.{◌≡◌, ◌≤◌, ◌+◌, length, min, IfOk, OnOk};
ghost use Rattle.gix_index.specs.Header.{header_len};
ghost use Rattle.view_salvage.specs.FrontSteps.{IsFrontOf, LaysEntry, own_len, head_len};

use gix_index::decode::entry::{EntryList, EntryReader, Lent};
use gix_index::entry::Flags;
use gix_index::hash::Kind;
use gix_index::{BitFlags as _, Version};
use std::alloc::{AllocError, Global};
use view_layout::part::{Part, What, push_part, push_some};

/// The length of a header in bytes.
pub(crate) const HEADER_LEN: usize = 12;

/// The length in bytes of an entry's numbers and its first word of flags.
const FIXED_LEN: usize = 42;

/// The length in bytes of a second word of flags.
const SECOND_LEN: usize = 2;

/// The entries at the front of a file, its parts up to their end, and the bytes after them.
#[derive(Drop)]
pub(crate) struct Front<'a> {
    pub(crate) parts: Vec<Part>,
    pub(crate) entries: EntryList,
    pub(crate) rest: &'a [u8],
}

/// Returns the number of bytes before the path of an entry with these flags, without the bytes that version 4 has
/// there.
fn head_len(kind: Kind, flags: Flags) -> usize
    ensures value { result ≡ head_len kind flags.0 }
    ensures small { result ≤ 76 }
{
    let second = if flags.bits() & 0x4000 == 0x4000 {
        SECOND_LEN
    } else {
        0
    };
    FIXED_LEN + kind.len_in_bytes() + second
}

/// Returns the number of an entry's bytes without its padding.
fn own_len(version: Version, kind: Kind, lent: &Lent<'_>, total: usize) -> usize
    ensures value { result ≡ own_len version kind lent.now.entry.flags.0
        (lent.now.shared + length lent.now.path.now) total }
    ensures bound { result ≤ total }
{
    match version {
        Version::V2 | Version::V3 => {
            let path = lent.shared.saturating_add(lent.path.len());
            head_len(kind, lent.entry.flags)
                .saturating_add(path)
                .min(total)
        }
        Version::V4 => total,
    }
}

/// Appends the parts of an entry from an offset on: `own` bytes of the entry, and `padding` bytes.
fn push_entry(
    parts: &mut Vec<Part>,
    offset: usize,
    number: u32,
    own: usize,
    padding: usize,
) -> Result<(), AllocError>
    requires { offset + own ≤ 0xffffffffffffffff }
    ensures { OnOk result
        (LaysEntry offset number own padding parts.old.items parts.new.items) }
{
    push_part(parts, offset, own, What::Entry { number })?;
    push_some(parts, offset + own, padding, What::Padding)
}

/// Reads the entries after the header, at most `count`.
pub(crate) fn read_front(
    alloc: Global,
    version: Version,
    kind: Kind,
    count: u32,
    bytes: &[u8],
) -> Result<Front<'_>, AllocError>
    requires { header_len ≤ length bytes.now }
    ensures { IfOk result (IsFrontOf version kind count bytes.now) }
{
    let mut parts = Vec::new(alloc);
    let mut entries = EntryList::new(alloc);
    push_part(&mut parts, 0, HEADER_LEN, What::Header)?;
    let (_, behind) = bytes.split_at(HEADER_LEN);
    let mut reader = EntryReader::new(version, kind, behind);
    for number in 0..count {
        let rest = reader.rest();
        let Some(lent) = reader.next() else {
            return Ok(Front {
                parts,
                entries,
                rest,
            });
        };
        let total = rest.len() - reader.rest().len();
        let own = own_len(version, kind, &lent, total);
        let offset = bytes.len() - rest.len();
        push_entry(&mut parts, offset, number, own, total - own)?;
        entries.push_after(lent.entry, lent.shared, lent.path)?;
    }
    Ok(Front {
        parts,
        entries,
        rest: reader.rest(),
    })
}
