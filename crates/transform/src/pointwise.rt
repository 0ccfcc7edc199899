ghost use Rattle.std.specs.Prelude.{◌≡◌, ℕ, ◌+◌, ◌-◌, ◌*◌, ◌/◌, ◌%◌, ◌^◌, ◌<◌, true, length};
ghost use Rattle.kernels.specs.Polynomials.{Below};
ghost use Rattle.kernels.specs.Reading.{folded};
ghost use Rattle.transform.specs.Pointwise.{fused_word, fused_at, scaled};
ghost use Rattle.transform.specs.Reads.{reads};
ghost use Rattle.transform.specs.Values.{values};

use crate::field;
use rings::ring::Ring;

// Each word times 1 / N.
pub fn scale(ring: &Ring, words: &mut [u32])
    ensures { words.new ≡ scaled ring.now words.old }
{
    for word in words.iter_mut() {
        *word = field::mul_shoup(ring, *word, ring.inverse, ring.sharp);
    }
}

// c + a b, for words below the modulus.
fn fuse_word(ring: &Ring, c: u32, a: u32, b: u32) -> u32
    requires sum { c < ring.now.modulus }
    requires left { a < ring.now.modulus }
    requires right { b < ring.now.modulus }
    ensures { result ≡ fused_word ring.now.modulus c a b }
{
    let product = field::barrett(ring, a as u64 * b as u64);
    field::reduce_once(ring, c + product)
}

// c + a b at each place, for words below the modulus.
fn fuse_low(ring: &Ring, acc: &mut [u32], left: &[u32], right: &[u32])
    requires one { length left.now ≡ length acc.old }
    requires other { length right.now ≡ length acc.old }
    requires first { Below ring.now.modulus acc.old }
    requires second { Below ring.now.modulus left.now }
    requires third { Below ring.now.modulus right.now }
    ensures { acc.new ≡ fused_at ring.now acc.old left.now right.now }
{
    for (i, word) in acc.iter_mut().enumerate() {
        *word = fuse_word(ring, *word, left[i], right[i]);
    }
}

// c + a b at each place, for any words.
fn fuse_any(ring: &Ring, acc: &mut [u32], left: &[u32], right: &[u32])
    requires one { length left.now ≡ length acc.old }
    requires other { length right.now ≡ length acc.old }
    ensures { acc.new ≡ fused_at ring.now acc.old left.now right.now }
{
    let modulus = ring.modulus as u64;
    for (i, word) in acc.iter_mut().enumerate() {
        *word = ((*word as u64 + left[i] as u64 * right[i] as u64 % modulus) % modulus) as u32;
    }
}

// Whether all words of three lists lie below the modulus: one pass, with no branch.
fn all_reduced(modulus: u32, acc: &[u32], left: &[u32], right: &[u32]) -> bool
    requires one { length left.now ≡ length acc.now }
    requires other { length right.now ≡ length acc.now }
    ensures first { result ≡ true → Below modulus acc.now }
    ensures second { result ≡ true → Below modulus left.now }
    ensures third { result ≡ true → Below modulus right.now }
{
    let mut high = false;
    for (i, word) in acc.iter().enumerate() {
        high = high | (*word >= modulus) | (left[i] >= modulus) | (right[i] >= modulus);
    }
    !high
}

// The form of c + a b, of the polynomials that three forms read as; nothing is divided where all words are reduced.
pub fn fold_forms(ring: &Ring, acc: &mut [u32], left: &[u32], right: &[u32])
    requires zero { length acc.old ≡ ring.now.degree }
    requires one { length left.now ≡ ring.now.degree }
    requires two { length right.now ≡ ring.now.degree }
    ensures { acc.new ≡ folded reads values ring.now acc.old left.now right.now }
{
    if all_reduced(ring.modulus, acc, left, right) {
        fuse_low(ring, acc, left, right);
    } else {
        fuse_any(ring, acc, left, right);
    }
}
