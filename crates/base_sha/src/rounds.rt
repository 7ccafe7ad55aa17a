//! The rounds of one block, from its words with the rounds' constants added (FIPS 180-4, section 6.1.2).

ghost use Rattle.std.specs.Prelude.{◌≡◌, ◌⊎◌, ℕ, ◌+◌, ◌<◌, List, slice_index};
ghost use Rattle.sha1.specs.Sha1.{add32, ch, compress, maj, parity, round, rounds, schedule};
ghost use Rattle.base_sha.specs.Lanes.{IsKeyed};

/// Computes a round, from the value `f` of its function and the sum `keyed` of its constant and word.
#[inline(always)]
fn round(v: &mut [u32; 5], f: u32, keyed: u32)
    ensures { (k w : ℕ) → keyed ≡ add32 w k → v.new ≡ round v.old f k w }
{
    let [a, b, c, d, e] = *v;
    let sum = e
        .wrapping_add(keyed)
        .wrapping_add(f)
        .wrapping_add(a.rotate_left(5));
    *v = [sum, a, b.rotate_left(30), c, d];
}

/// Computes a round with the function `Ch`.
#[inline(always)]
fn choose(v: &mut [u32; 5], keyed: u32)
    ensures { (k w : ℕ) → keyed ≡ add32 w k → v.new
        ≡ round v.old (ch (slice_index v.old 1) (slice_index v.old 2) (slice_index v.old 3)) k w }
{
    let f = v[3] ^ (v[1] & (v[2] ^ v[3]));
    round(v, f, keyed);
}

/// Computes a round with the function `Parity`.
#[inline(always)]
fn parity(v: &mut [u32; 5], keyed: u32)
    ensures { (k w : ℕ) → keyed ≡ add32 w k → v.new
        ≡ round v.old (parity (slice_index v.old 1) (slice_index v.old 2) (slice_index v.old 3)) k w }
{
    let f = v[1] ^ v[2] ^ v[3];
    round(v, f, keyed);
}

/// Computes a round with the function `Maj`. Its two parts have no bit in common.
#[inline(always)]
fn majority(v: &mut [u32; 5], keyed: u32)
    ensures { (k w : ℕ) → keyed ≡ add32 w k → v.new
        ≡ round v.old (maj (slice_index v.old 1) (slice_index v.old 2) (slice_index v.old 3)) k w }
{
    let both = v[1] & v[2];
    let one = v[3] & (v[1] ^ v[2]);
    round(v, both.wrapping_add(one), keyed);
}

// Each turn of a loop has five rounds. After them each working variable is in its array element again, without a move.

/// Computes rounds 0 to 19.
#[inline(always)]
fn choose_rounds(v: &mut [u32; 5], keyed: &[[u32; 4]; 80], j: usize)
    requires { j < 4 }
    ensures { (h ws : List ℕ) → IsKeyed keyed.now j ws → v.old ≡ rounds h ws 0
        → v.new ≡ rounds h ws 20 }
{
    for turn in 0..4 {
        let t = 5 * turn;
        choose(v, keyed[t][j]);
        choose(v, keyed[t + 1][j]);
        choose(v, keyed[t + 2][j]);
        choose(v, keyed[t + 3][j]);
        choose(v, keyed[t + 4][j]);
    }
}

/// Computes rounds 20 to 39, or 60 to 79.
#[inline(always)]
fn parity_rounds(v: &mut [u32; 5], keyed: &[[u32; 4]; 80], j: usize, from: usize)
    requires lane { j < 4 }
    requires from { (from ≡ 20) ⊎ (from ≡ 60) }
    ensures { (h ws : List ℕ) → IsKeyed keyed.now j ws → v.old ≡ rounds h ws from
        → v.new ≡ rounds h ws (from + 20) }
{
    for turn in 0..4 {
        let t = from + 5 * turn;
        parity(v, keyed[t][j]);
        parity(v, keyed[t + 1][j]);
        parity(v, keyed[t + 2][j]);
        parity(v, keyed[t + 3][j]);
        parity(v, keyed[t + 4][j]);
    }
}

/// Computes rounds 40 to 59.
#[inline(always)]
fn majority_rounds(v: &mut [u32; 5], keyed: &[[u32; 4]; 80], j: usize)
    requires { j < 4 }
    ensures { (h ws : List ℕ) → IsKeyed keyed.now j ws → v.old ≡ rounds h ws 40
        → v.new ≡ rounds h ws 60 }
{
    for turn in 0..4 {
        let t = 40 + 5 * turn;
        majority(v, keyed[t][j]);
        majority(v, keyed[t + 1][j]);
        majority(v, keyed[t + 2][j]);
        majority(v, keyed[t + 3][j]);
        majority(v, keyed[t + 4][j]);
    }
}

/// Compresses the block whose words are in lane `j` of `keyed` into the hash value.
#[inline(always)]
pub fn compress(hash: &mut [u32; 5], keyed: &[[u32; 4]; 80], j: usize)
    requires { j < 4 }
    ensures { (b : List ℕ) → IsKeyed keyed.now j (schedule b 64) → hash.new ≡ compress hash.old b }
{
    let mut v = *hash;
    choose_rounds(&mut v, keyed, j);
    parity_rounds(&mut v, keyed, j, 20);
    majority_rounds(&mut v, keyed, j);
    parity_rounds(&mut v, keyed, j, 60);
    *hash = [
        hash[0].wrapping_add(v[0]),
        hash[1].wrapping_add(v[1]),
        hash[2].wrapping_add(v[2]),
        hash[3].wrapping_add(v[3]),
        hash[4].wrapping_add(v[4]),
    ];
}
