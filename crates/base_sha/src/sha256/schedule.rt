//! The schedules of four blocks, in the lanes of vectors (FIPS 180-4, section 6.2.2, step 1).

ghost use Rattle.std.specs.Prelude.{◌≡◌, ℕ, ◌+◌, ◌<◌, ◌≤◌, List, length, slice_index};
ghost use Rattle.std.specs.Int.{w32, rotate_right};
ghost use Rattle.sha2.specs.Sha256.{add32, small_sigma0, small_sigma1};
ghost use Rattle.base_sha.specs.Lanes256.{IsSpread};

use crate::schedule::{keyed_by, words_at};
use std::simd::u32x4;

/// The constants of the rounds (section 4.2.2).
const ROUND_CONSTANTS: [u32; 64] = [
    0x428A_2F98,
    0x7137_4491,
    0xB5C0_FBCF,
    0xE9B5_DBA5,
    0x3956_C25B,
    0x59F1_11F1,
    0x923F_82A4,
    0xAB1C_5ED5,
    0xD807_AA98,
    0x1283_5B01,
    0x2431_85BE,
    0x550C_7DC3,
    0x72BE_5D74,
    0x80DE_B1FE,
    0x9BDC_06A7,
    0xC19B_F174,
    0xE49B_69C1,
    0xEFBE_4786,
    0x0FC1_9DC6,
    0x240C_A1CC,
    0x2DE9_2C6F,
    0x4A74_84AA,
    0x5CB0_A9DC,
    0x76F9_88DA,
    0x983E_5152,
    0xA831_C66D,
    0xB003_27C8,
    0xBF59_7FC7,
    0xC6E0_0BF3,
    0xD5A7_9147,
    0x06CA_6351,
    0x1429_2967,
    0x27B7_0A85,
    0x2E1B_2138,
    0x4D2C_6DFC,
    0x5338_0D13,
    0x650A_7354,
    0x766A_0ABB,
    0x81C2_C92E,
    0x9272_2C85,
    0xA2BF_E8A1,
    0xA81A_664B,
    0xC24B_8B70,
    0xC76C_51A3,
    0xD192_E819,
    0xD699_0624,
    0xF40E_3585,
    0x106A_A070,
    0x19A4_C116,
    0x1E37_6C08,
    0x2748_774C,
    0x34B0_BCB5,
    0x391C_0CB3,
    0x4ED8_AA4A,
    0x5B9C_CA4F,
    0x682E_6FF3,
    0x748F_82EE,
    0x78A5_636F,
    0x84C8_7814,
    0x8CC7_0208,
    0x90BE_FFFA,
    0xA450_6CEB,
    0xBEF9_A3F7,
    0xC671_78F2,
];

/// Returns each word rotated right by `bits` bits.
#[inline(always)]
fn rotate_words_right(words: u32x4, bits: u32) -> u32x4
    requires low { 0 < bits }
    requires high { bits < 32 }
    ensures lanes { (j : ℕ) → j < 4 → slice_index result j ≡ rotate_right w32 (slice_index words j) bits }
    ensures len { length result ≡ 4 }
{
    (words >> u32x4::splat(bits)) | (words << u32x4::splat(32 - bits))
}

/// Returns the function `σ0` in lower case (section 4.1.2) of each word.
#[inline(always)]
fn small_sigma0(words: u32x4) -> u32x4
    ensures lanes { (j : ℕ) → j < 4 → slice_index result j ≡ small_sigma0 (slice_index words j) }
    ensures len { length result ≡ 4 }
{
    rotate_words_right(words, 7) ^ rotate_words_right(words, 18) ^ (words >> u32x4::splat(3))
}

/// Returns the function `σ1` in lower case (section 4.1.2) of each word.
#[inline(always)]
fn small_sigma1(words: u32x4) -> u32x4
    ensures lanes { (j : ℕ) → j < 4 → slice_index result j ≡ small_sigma1 (slice_index words j) }
    ensures len { length result ≡ 4 }
{
    rotate_words_right(words, 17) ^ rotate_words_right(words, 19) ^ (words >> u32x4::splat(10))
}

/// Returns the next word of each block, from its words 2, 7, 15 and 16 before that.
#[inline(always)]
fn next_words(a: u32x4, b: u32x4, c: u32x4, d: u32x4) -> u32x4
    ensures { (j : ℕ) → j < 4
        → slice_index result j ≡ add32 (add32 (add32 (small_sigma1 (slice_index a j))
        (slice_index b j)) (small_sigma0 (slice_index c j))) (slice_index d j) }
{
    small_sigma1(a) + b + small_sigma0(c) + d
}

/// Writes word `t` of each block, computed from the words before it.
#[inline(always)]
fn extend(words: &mut [u32x4; 64], keyed: &mut [[u32; 4]; 64], t: usize)
    requires low { 16 ≤ t }
    requires high { t < 64 }
    ensures { (x : List ℕ) → IsSpread words.old keyed.old x t → IsSpread words.new keyed.new x (t + 1) }
{
    let next = next_words(words[t - 2], words[t - 7], words[t - 15], words[t - 16]);
    words[t] = next;
    keyed[t] = keyed_by(next, ROUND_CONSTANTS[t]);
}

/// Writes the first 16 words, which are those of the blocks themselves.
#[inline(always)]
fn load(words: &mut [u32x4; 64], keyed: &mut [[u32; 4]; 64], group: &[u8])
    requires { length group.now ≡ 256 }
    ensures { IsSpread words.new keyed.new group.now 16 }
{
    for i in 0..16 {
        let first = words_at(group, 4 * i);
        words[i] = first;
        keyed[i] = keyed_by(first, ROUND_CONSTANTS[i]);
    }
}

/// Writes the schedules of a group's blocks to `words`, and to `keyed` with the constants added.
#[inline(always)]
pub fn spread(words: &mut [u32x4; 64], keyed: &mut [[u32; 4]; 64], group: &[u8])
    requires { length group.now ≡ 256 }
    ensures { IsSpread words.new keyed.new group.now 64 }
{
    load(words, keyed, group);
    for turn in 4..16 {
        let t = 4 * turn;
        extend(words, keyed, t);
        extend(words, keyed, t + 1);
        extend(words, keyed, t + 2);
        extend(words, keyed, t + 3);
    }
}
