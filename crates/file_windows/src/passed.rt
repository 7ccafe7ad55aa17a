//! Passing entries one after another without storing them.

ghost use Rattle.std.specs.Prelude.{◌≡◌, ◌<◌, ◌+◌, ℕ, IfErr, IfOk};
ghost use Rattle.entry_list.specs.Entries.{LacksEntry};
ghost use Rattle.file_windows.specs.Entries.{ArePassed};
ghost use Rattle.file_windows.specs.Passed.{in_64_bits};

use entry_decode::reader::EntryReader;
use entry_list::Version;
use index_parts::hash::Kind;

/// The result of passing entries.
#[derive(Clone, Copy)]
pub struct Passed<'a> {
    /// The total length of their paths in bytes; `None` if it doesn't fit in 64 bits.
    pub path_bytes: Option<usize>,
    /// Whether one of them is a sparse directory.
    pub sparse: bool,
    /// The bytes after them.
    pub rest: &'a [u8],
}

/// Returns the sum of a number and a length; `None` if it doesn't fit in 64 bits.
fn sum_of(so_far: Option<usize>, len: usize) -> Option<usize>
    ensures { (n : ℕ) → so_far ≡ in_64_bits n → result ≡ in_64_bits (n + len) }
{
    so_far?.checked_add(len)
}

/// Passes this number of entries. The error is the index of the first entry that isn't there, counted from 0.
pub fn pass_entries(
    version: Version,
    kind: Kind,
    count: u32,
    bytes: &[u8],
) -> Result<Passed<'_>, u32>
    ensures passed { IfOk result (ArePassed version kind count bytes.now) }
    ensures fault { IfErr result (λ i. (i < count) × LacksEntry version kind bytes.now i) }
{
    let mut path_bytes = Some(0);
    let mut sparse = false;
    let mut reader = EntryReader::new(version, kind, bytes);
    for place in 0..count {
        let Some(lent) = reader.next() else {
            return Err(place);
        };
        path_bytes = sum_of(path_bytes, lent.shared + lent.path.len());
        sparse |= lent.entry.mode.is_sparse();
    }
    Ok(Passed {
        path_bytes,
        sparse,
        rest: reader.rest(),
    })
}
