//! The schedules of four blocks, in the lanes of vectors (FIPS 180-4, section 6.1.2, step 1).

ghost use Rattle.std.specs.Prelude.{◌≡◌, ℕ, ◌+◌, ◌*◌, ◌<◌, ◌≤◌, List, length, bit_xor, slice_index};
ghost use Rattle.std.specs.Int.{w32, rotate_left};
ghost use Rattle.sha1.specs.Sha1.{add32, round_constant, word_at};
ghost use Rattle.base_sha.specs.Lanes.{IsSpread};

use std::simd::u32x4;

// The constants of the rounds (section 4.2.1).
const K0: u32 = 0x5A82_7999;

const K1: u32 = 0x6ED9_EBA1;

const K2: u32 = 0x8F1B_BCDC;

const K3: u32 = 0xCA62_C1D6;

/// Returns the big-endian word at the offset `at`.
#[inline(always)]
fn word_at(bytes: &[u8], at: usize) -> u32
    requires { at + 4 ≤ length bytes.now }
    ensures { result ≡ word_at bytes.now at }
{
    u32::from_be_bytes([bytes[at], bytes[at + 1], bytes[at + 2], bytes[at + 3]])
}

/// Returns the word at the offset `at` of each block.
#[inline(always)]
pub fn words_at(group: &[u8], at: usize) -> u32x4
    requires { at + 196 ≤ length group.now }
    ensures { (j : ℕ) → j < 4 → slice_index result j ≡ word_at group.now (at + 64 * j) }
{
    u32x4::from_array([
        word_at(group, at),
        word_at(group, at + 64),
        word_at(group, at + 128),
        word_at(group, at + 192),
    ])
}

/// Returns each word rotated left by one bit.
#[inline(always)]
fn rotate_words_left(words: u32x4) -> u32x4
    ensures { (j : ℕ) → j < 4 → slice_index result j ≡ rotate_left w32 (slice_index words j) 1 }
{
    (words << u32x4::splat(1)) | (words >> u32x4::splat(31))
}

/// Returns the next word of each block, from its words 3, 8, 14 and 16 before that.
#[inline(always)]
fn next_words(a: u32x4, b: u32x4, c: u32x4, d: u32x4) -> u32x4
    ensures { (j : ℕ) → j < 4
        → slice_index result j ≡ rotate_left w32 (bit_xor (bit_xor (bit_xor (slice_index a j)
        (slice_index b j)) (slice_index c j)) (slice_index d j)) 1 }
{
    rotate_words_left(a ^ b ^ c ^ d)
}

/// Returns the words with the constant `k` of a round added to each.
#[inline(always)]
pub fn keyed_by(words: u32x4, k: u32) -> [u32; 4]
    ensures { (j : ℕ) → j < 4 → slice_index result j ≡ add32 (slice_index words j) k }
{
    (words + u32x4::splat(k)).to_array()
}

/// Writes word `t` of each block, computed from the words before it.
#[inline(always)]
fn extend(words: &mut [u32x4; 80], keyed: &mut [[u32; 4]; 80], t: usize, k: u32)
    requires low { 16 ≤ t }
    requires high { t < 80 }
    requires constant { k ≡ round_constant t }
    ensures { (x : List ℕ) → IsSpread words.old keyed.old x t → IsSpread words.new keyed.new x (t + 1) }
{
    let next = next_words(words[t - 3], words[t - 8], words[t - 14], words[t - 16]);
    words[t] = next;
    keyed[t] = keyed_by(next, k);
}

/// Writes the first 16 words, which are those of the blocks themselves.
#[inline(always)]
fn load(words: &mut [u32x4; 80], keyed: &mut [[u32; 4]; 80], group: &[u8])
    requires { length group.now ≡ 256 }
    ensures { IsSpread words.new keyed.new group.now 16 }
{
    for i in 0..16 {
        let first = words_at(group, 4 * i);
        words[i] = first;
        keyed[i] = keyed_by(first, K0);
    }
}

/// Writes twenty words of each block, from word `from` on. Their rounds have the same constant `k`.
#[inline(always)]
fn extend_by_twenty(words: &mut [u32x4; 80], keyed: &mut [[u32; 4]; 80], from: usize, k: u32)
    requires low { 16 ≤ from }
    requires high { from + 20 ≤ 80 }
    requires constant { (t : ℕ) → from ≤ t → t < from + 20 → k ≡ round_constant t }
    ensures { (x : List ℕ) → IsSpread words.old keyed.old x from
        → IsSpread words.new keyed.new x (from + 20) }
{
    for turn in 0..4 {
        let t = from + 5 * turn;
        extend(words, keyed, t, k);
        extend(words, keyed, t + 1, k);
        extend(words, keyed, t + 2, k);
        extend(words, keyed, t + 3, k);
        extend(words, keyed, t + 4, k);
    }
}

/// Writes the schedules of a group's blocks to `words`, and to `keyed` with the constants added.
#[inline(always)]
pub fn spread(words: &mut [u32x4; 80], keyed: &mut [[u32; 4]; 80], group: &[u8])
    requires { length group.now ≡ 256 }
    ensures { IsSpread words.new keyed.new group.now 80 }
{
    load(words, keyed, group);
    extend(words, keyed, 16, K0);
    extend(words, keyed, 17, K0);
    extend(words, keyed, 18, K0);
    extend(words, keyed, 19, K0);
    extend_by_twenty(words, keyed, 20, K1);
    extend_by_twenty(words, keyed, 40, K2);
    extend_by_twenty(words, keyed, 60, K3);
}
