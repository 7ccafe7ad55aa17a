//! SHA-256 (FIPS 180-4, section 6.2), four blocks at a time.
//!
//! A group is four blocks of 64 bytes. Their schedules are computed in parallel, in the lanes of vectors. Their rounds
//! are computed one block after another.

ghost use Rattle.sha2.specs.Sha256.{compress, initial_hash_256, sha256};
ghost use Rattle.base_sha.specs.Lanes256.{AreKeyed};

mod rounds;
mod schedule;

use crate::hasher::{HashValue, write_words};
use std::simd::u32x4;

/// The length of a SHA-256 digest in bytes.
const DIGEST_LEN: usize = 32;

/// The hash value before the first block (section 5.3.3).
const INITIAL_HASH: [u32; 8] = [
    0x6A09_E667,
    0xBB67_AE85,
    0x3C6E_F372,
    0xA54F_F53A,
    0x510E_527F,
    0x9B05_688C,
    0x1F83_D9AB,
    0x5BE0_CD19,
];

/// The eight words of the hash value of SHA-256 (section 6.2).
#[derive(Clone, Copy)]
pub struct Sha256Value([u32; 8]);

impl HashValue for Sha256Value {
    type Schedules = [u32x4; 64];

    type Keyed = [[u32; 4]; 64];

    type Digest = [u8; DIGEST_LEN];

    ghost words = { λ hash. hash.0 };

    ghost initial = { initial_hash_256 };

    ghost compress = { compress };

    ghost are_keyed = { λ keyed group. AreKeyed keyed group 64 };

    ghost digest = { sha256 };

    ghost bytes = { λ digest. digest };

    fn initial() -> Sha256Value {
        Sha256Value(INITIAL_HASH)
    }

    #[inline(always)]
    fn schedules() -> [u32x4; 64] {
        [u32x4::splat(0); 64]
    }

    #[inline(always)]
    fn keyed() -> [[u32; 4]; 64] {
        [[0; 4]; 64]
    }

    #[inline(always)]
    fn spread(schedules: &mut [u32x4; 64], keyed: &mut [[u32; 4]; 64], group: &[u8]) {
        schedule::spread(schedules, keyed, group);
    }

    #[inline(always)]
    fn compress(&mut self, keyed: &[[u32; 4]; 64], j: usize) {
        rounds::compress(&mut self.0, keyed, j);
    }

    fn to_digest(&self) -> [u8; DIGEST_LEN] {
        let mut digest = [0; DIGEST_LEN];
        write_words(&self.0, &mut digest);
        digest
    }
}
