//! Comparison of names that ignores the case of ASCII letters, eight bytes at once.

ghost use Rattle.std.specs.Prelude.{◌≡◌, ◌≤◌, ◌+◌, drop, length, map, take, true};
ghost use Rattle.std.specs.Char.{to_ascii_lowercase};
ghost use Rattle.std.specs.Int.{to_be_bytes, w64};
ghost use Rattle.entry_list.specs.Order.{path_cmp};
ghost use Rattle.entry_lookup.specs.Folded.{folded};
ghost use Rattle.entry_lookup.specs.NameSteps.{common_cmp};

use index_parts::read::{WORD_LEN, word_at};
use std::cmp::Ordering;

/// Returns the word with each of its eight bytes in lower case.
///
/// Adding one number to the lower seven bits of a byte sets the highest bit from `A` on. Adding another sets it after
/// `Z`. If only the first does, and the byte is ASCII, that bit shifted right by two is the bit that differs between
/// the cases.
fn lower_word(word: u64) -> u64
    ensures { to_be_bytes w64 result ≡ map to_ascii_lowercase (to_be_bytes w64 word) }
{
    let low = word & 0x7f7f_7f7f_7f7f_7f7f;
    let from_a = low + 0x3f3f_3f3f_3f3f_3f3f;
    let behind_z = low + 0x2525_2525_2525_2525;
    let upper = from_a & !(behind_z | word) & 0x8080_8080_8080_8080;
    word | (upper >> 2)
}

/// Compares the eight bytes at an index of one name with those of another.
fn compare_words(a: &[u8], b: &[u8], at: usize) -> Ordering
    requires a_long { at + 8 ≤ length a.now }
    requires b_long { at + 8 ≤ length b.now }
    ensures { result ≡ path_cmp (folded true (take 8 (drop at a.now)))
        (folded true (take 8 (drop at b.now))) }
{
    lower_word(word_at(a, at)).cmp(&lower_word(word_at(b, at)))
}

/// Compares the first bytes of two names, as many as both have, byte by byte.
fn compare_bytes(a: &[u8], b: &[u8]) -> Ordering
    ensures { result ≡ common_cmp (folded true a.now) (folded true b.now) }
{
    let mut rest = b;
    for byte in a {
        let Some((other, after)) = rest.split_first() else {
            return Ordering::Equal;
        };
        let order = byte.to_ascii_lowercase().cmp(&other.to_ascii_lowercase());
        if order.is_ne() {
            return order;
        }
        rest = after;
    }
    Ordering::Equal
}

/// Compares the first bytes of two names, as many as both have, by words. The last word includes bytes that are known
/// to be equal.
pub(crate) fn compare_fronts(a: &[u8], b: &[u8]) -> Ordering
    ensures { result ≡ common_cmp (folded true a.now) (folded true b.now) }
{
    let end = a.len().min(b.len());
    if end < WORD_LEN {
        return compare_bytes(a, b);
    }
    let last = end - WORD_LEN;
    let mut at = 0;
    while at < last {
        let order = compare_words(a, b, at);
        if order.is_ne() {
            return order;
        }
        at += WORD_LEN;
    }
    compare_words(a, b, last)
}
