//! The range of an entry's path in the storage of paths, in ten bytes.

ghost use Rattle.std.specs.Prelude.{◌≡◌, ◌≤◌, ◌+◌, ◌^◌, ◌⊎◌, IfSome, IsNone};
ghost use Rattle.entry_list.specs.PathRange.{packed_range, range_end, range_start};

/// The number of values that 32 bits have.
const HALF: usize = 1 << 32;

/// The range of a path in a storage: a start of 48 bits and a length of 32 bits, in bytes. With two indices of 64 bits
/// each, an entry would take eight bytes more.
#[derive(Clone, Copy, Debug, PartialEq, Eq)]
pub struct PathRange {
    low: u32,
    len: u32,
    high: u16,
}

impl PathRange {
    /// Returns the range of `len` bytes that begins at index `start`, or None if `start` is 2^48 or more, or if `len`
    /// is 2^32 or more.
    pub fn new(start: usize, len: usize) -> Option<PathRange>
        ensures some { IfSome result (λ p. p ≡ packed_range start len) }
        ensures none { IsNone result → (2 ^ 48 ≤ start) ⊎ (2 ^ 32 ≤ len) }
    {
        let len = u32::try_from(len).ok()?;
        let high = u16::try_from(start / HALF).ok()?;
        let low = (start % HALF) as u32;
        Some(PathRange { low, len, high })
    }

    /// Returns the index of the first byte.
    pub fn start(self) -> usize
        ensures { result ≡ range_start self }
    {
        self.high as usize * HALF + self.low as usize
    }

    /// Returns the index after the last byte.
    pub fn end(self) -> usize
        ensures { result ≡ range_end self }
    {
        self.start() + self.len()
    }

    /// Returns the number of bytes.
    pub fn len(self) -> usize
        ensures { result ≡ self.len }
    {
        self.len as usize
    }
}
