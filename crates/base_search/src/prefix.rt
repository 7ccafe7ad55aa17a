//! Comparison of bytes with a prefix.

ghost use Rattle.std.specs.Prelude.{◌≡◌, ◌++◌, drop, take};
ghost use Rattle.base_search.specs.Prefix.{prefix_cmp};

use std::cmp::Ordering;

/// Returns the first `len` bytes, or all if there are fewer, and the bytes after them.
fn split_at_most(bytes: &[u8], len: usize) -> (&[u8], &[u8])
    ensures first { result.0.now ≡ take len bytes.now }
    ensures rest { result.1.now ≡ drop len bytes.now }
{
    if bytes.len() < len {
        (bytes, &[])
    } else {
        bytes.split_at(len)
    }
}

/// Compares the first bytes, as many as `prefix` has, with `prefix`. The result is `Equal` if `bytes` begin with it.
pub fn compare_prefix(bytes: &[u8], prefix: &[u8]) -> Ordering
    ensures { result ≡ prefix_cmp prefix.now bytes.now }
{
    split_at_most(bytes, prefix.len()).0.cmp(prefix)
}

/// Compares the first bytes with a prefix that is given in two pieces, `prefix` and then `tail`. The result is `Equal`
/// if `bytes` begin with both.
pub fn compare_pieces(bytes: &[u8], prefix: &[u8], tail: &[u8]) -> Ordering
    ensures { result ≡ prefix_cmp (prefix.now ++ tail.now) bytes.now }
{
    let (first, rest) = split_at_most(bytes, prefix.len());
    first.cmp(prefix).then(compare_prefix(rest, tail))
}
