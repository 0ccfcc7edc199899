ghost use Rattle.std.specs.Prelude.{◌≡◌, ℕ, ◌+◌, ◌-◌, ◌*◌, ◌/◌, ◌%◌, ◌^◌, ◌<◌, ◌≤◌, length, ℤ, pos, neg_ℤ, if◌then◌else◌};
ghost use Rattle.algebra.specs.Polys.{power, wrapped};
ghost use Rattle.algebra.specs.Words.{word_of};
ghost use Rattle.algebra.specs.Gates.{test, beginning};

use crate::vectors::minus;
use words::modulus::Modulus;

// Whether coefficient k of X^i times the test polynomial is δ, and not -δ. The test polynomial has δ above the middle place.
fn is_delta(degree: usize, i: usize, k: usize) -> bool
    requires turn { i ≤ degree }
    requires place { k < degree }
    requires few { degree ≤ 1024 }
    ensures { (δ : ℤ) → wrapped degree i (test degree δ) k ≡ (if result then δ else neg_ℤ δ) }
{
    if k < i {
        degree + k - i <= degree / 2
    } else {
        k - i > degree / 2
    }
}

// The same of X^e, for e below 2N, which turns the signs where e is not below N.
fn is_turned_delta(degree: usize, exponent: usize, k: usize) -> bool
    requires turn { exponent < degree + degree }
    requires place { k < degree }
    requires few { degree ≤ 1024 }
    ensures { (δ : ℤ) → power degree exponent (test degree δ) k ≡ (if result then δ else neg_ℤ δ) }
{
    if exponent < degree {
        is_delta(degree, exponent, k)
    } else {
        !is_delta(degree, exponent - degree, k)
    }
}

// Coefficient k of X^e times the test polynomial, for e below 2N: δ or -δ, where δ is an eighth of the modulus, rounded down.
fn coefficient(degree: usize, modulus: Modulus, exponent: usize, k: usize) -> u32
    requires turn { exponent < degree + degree }
    requires place { k < degree }
    requires long { degree ≤ 1024 }
    ensures { result ≡ word_of modulus.value (power degree exponent (test degree (pos (modulus.value / 8))) k) }
{
    let delta = modulus.value / 8;
    if is_turned_delta(degree, exponent, k) {
        delta
    } else {
        minus(0, delta, modulus)
    }
}

// X^e times the test polynomial.
pub fn begin_words(modulus: Modulus, exponent: usize, out: &mut [u32])
    requires turn { exponent < length out.old + length out.old }
    requires long { length out.old ≤ 1024 }
    ensures { out.new ≡ beginning (length out.old) modulus.value exponent }
{
    let degree = out.len();
    for (k, word) in out.iter_mut().enumerate() {
        *word = coefficient(degree, modulus, exponent, k);
    }
}
