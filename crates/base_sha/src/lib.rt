//! SHA-1 and SHA-256 (FIPS 180-4, sections 6.1 and 6.2), four blocks at a time.
//!
//! A group is four blocks of 64 bytes. Their schedules are computed in parallel, in the lanes of vectors. Their rounds
//! are computed one block after another.
#![tactic(auto)]

ghost use Rattle.sha1.specs.Sha1.{compress, initial_hash, sha1};
ghost use Rattle.base_sha.specs.Lanes.{AreKeyed};

mod groups;
mod hasher;
mod rounds;
mod schedule;
mod sha256;

use hasher::write_words;
pub use hasher::{HashValue, Hasher};
pub use sha256::Sha256Value;
use std::simd::u32x4;

/// The length of a SHA-1 digest in bytes.
pub const DIGEST_LEN: usize = 20;

/// The hash value before the first block (section 5.3.1).
const INITIAL_HASH: [u32; 5] = [
    0x6745_2301,
    0xEFCD_AB89,
    0x98BA_DCFE,
    0x1032_5476,
    0xC3D2_E1F0,
];

/// The hasher of SHA-1. Its size is 288 bytes.
pub type Sha1 = Hasher<Sha1Value>;

/// The hasher of SHA-256. Its size is 296 bytes.
pub type Sha256 = Hasher<Sha256Value>;

/// The five words of the hash value of SHA-1 (section 6.1).
#[derive(Clone, Copy)]
pub struct Sha1Value([u32; 5]);

impl HashValue for Sha1Value {
    type Schedules = [u32x4; 80];

    type Keyed = [[u32; 4]; 80];

    type Digest = [u8; DIGEST_LEN];

    ghost words = { λ hash. hash.0 };

    ghost initial = { initial_hash };

    ghost compress = { compress };

    ghost are_keyed = { λ keyed group. AreKeyed keyed group 80 };

    ghost digest = { sha1 };

    ghost bytes = { λ digest. digest };

    fn initial() -> Sha1Value {
        Sha1Value(INITIAL_HASH)
    }

    #[inline(always)]
    fn schedules() -> [u32x4; 80] {
        [u32x4::splat(0); 80]
    }

    #[inline(always)]
    fn keyed() -> [[u32; 4]; 80] {
        [[0; 4]; 80]
    }

    #[inline(always)]
    fn spread(schedules: &mut [u32x4; 80], keyed: &mut [[u32; 4]; 80], group: &[u8]) {
        schedule::spread(schedules, keyed, group);
    }

    #[inline(always)]
    fn compress(&mut self, keyed: &[[u32; 4]; 80], j: usize) {
        rounds::compress(&mut self.0, keyed, j);
    }

    fn to_digest(&self) -> [u8; DIGEST_LEN] {
        let mut digest = [0; DIGEST_LEN];
        write_words(&self.0, &mut digest);
        digest
    }
}
