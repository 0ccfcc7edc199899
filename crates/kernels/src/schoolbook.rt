ghost use Rattle.std.specs.Prelude.{◌≡◌, ℕ, ◌<◌, length, pos, ◌+ℤ◌};
ghost use Rattle.algebra.specs.Polys.{mul};
ghost use Rattle.algebra.specs.Words.{coeffs, word_of};
ghost use Rattle.kernels.specs.Polynomials.{poly_of};
ghost use Rattle.kernels.specs.Reading.{folded};
ghost use Rattle.kernels.specs.Schoolbook.{brought};

use rings::ring::Ring;

// What X^i brings to place k of the words of a polynomial: past the end the sign turns, since X^N = -1.
fn shifted(ring: &Ring, words: &[u32], i: usize, k: usize) -> u32
    requires long { length words.now ≡ ring.now.degree }
    requires from { i < ring.now.degree }
    requires to { k < ring.now.degree }
    ensures { result ≡ brought ring.now.modulus words.now i k }
{
    let modulus = ring.modulus;
    if k < i {
        modulus - words[words.len() + k - i] % modulus
    } else {
        words[k - i] % modulus
    }
}

// Coefficient k of the product of two polynomials, and `start`.
fn coefficient(ring: &Ring, start: u32, left: &[u32], right: &[u32], k: usize) -> u32
    requires one { length left.now ≡ ring.now.degree }
    requires two { length right.now ≡ ring.now.degree }
    requires place { k < ring.now.degree }
    ensures { result ≡ word_of ring.now.modulus (pos start +ℤ mul (length right.now) (coeffs left.now) (coeffs right.now) k) }
{
    let modulus = ring.modulus as u64;
    let mut sum = start as u64 % modulus;
    for (i, word) in left.iter().enumerate() {
        let term = *word as u64 * shifted(ring, right, i, k) as u64;
        sum = (sum + term) % modulus;
    }
    sum as u32
}

// The product of two polynomials is added to a third, told by the polynomials that the words are.
pub fn fuse(ring: &Ring, acc: &mut [u32], left: &[u32], right: &[u32])
    requires zero { length acc.old ≡ ring.now.degree }
    requires one { length left.now ≡ ring.now.degree }
    requires two { length right.now ≡ ring.now.degree }
    ensures { acc.new ≡ folded poly_of (λ _ p. p) ring.now acc.old left.now right.now }
{
    for (k, word) in acc.iter_mut().enumerate() {
        *word = coefficient(ring, *word, left, right, k);
    }
}
