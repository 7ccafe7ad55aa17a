//! Groups of four blocks, compressed into a hash value (FIPS 180-4, sections 6.1.2 and 6.2.2).

ghost use Rattle.std.specs.Prelude.{◌≡◌, ℕ, ◌*◌, ◌/◌, ◌%◌, ◌≤◌, List, length};
ghost use Rattle.base_sha.specs.Blocks.{compressed};

use crate::hasher::HashValue;

/// The length of four blocks in bytes.
pub const GROUP_LEN: usize = 256;

/// Compresses the blocks of `groups` into the hash value, in order. `groups` has a multiple of [`GROUP_LEN`] bytes.
pub fn compress_groups<V: HashValue>(hash: &mut V, groups: &[u8])
    requires { length groups.now % 256 ≡ 0 }
    ensures { V.words hash.new
        ≡ compressed V.compress (V.words hash.old) groups.now (length groups.now / 64) }
{
    let mut schedules = V::schedules();
    let mut keyed = V::keyed();
    let mut value = *hash;
    for i in 0..groups.len() / GROUP_LEN {
        let group = &groups[GROUP_LEN * i..GROUP_LEN * i + GROUP_LEN];
        V::spread(&mut schedules, &mut keyed, group);
        compress_blocks(&mut value, &keyed, 4);
    }
    *hash = value;
}

/// Compresses the first `count` blocks of a group into the hash value.
pub fn compress_first<V: HashValue>(hash: &mut V, group: &[u8], count: usize)
    requires group { length group.now ≡ 256 }
    requires count { count ≤ 4 }
    ensures { V.words hash.new ≡ compressed V.compress (V.words hash.old) group.now count }
{
    let mut schedules = V::schedules();
    let mut keyed = V::keyed();
    V::spread(&mut schedules, &mut keyed, group);
    compress_blocks(hash, &keyed, count);
}

/// Compresses the first `count` blocks of a group into the hash value. `keyed` has the words of the group's schedules
/// with the rounds' constants added.
#[inline(always)]
fn compress_blocks<V: HashValue>(hash: &mut V, keyed: &V::Keyed, count: usize)
    requires { count ≤ 4 }
    ensures { (group : List ℕ) → V.are_keyed keyed.now group
        → V.words hash.new ≡ compressed V.compress (V.words hash.old) group count }
{
    for j in 0..count {
        hash.compress(keyed, j);
    }
}
