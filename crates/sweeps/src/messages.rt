ghost use Rattle.std.specs.Prelude.{◌≡◌, ℕ, ◌^◌, ◌<◌, ◌≤◌, length, ℤ, unsigned_abs};
ghost use Rattle.algebra.specs.Words.{word_of};
ghost use Rattle.sweeps.specs.Fit.{entries};
ghost use Rattle.sweeps.specs.Steps.{constant};

use set::within::Within;

// The entry at a place of a secret, and 0 past its end.
pub(crate) fn entry(secret: &[i32], index: usize) -> i64
    ensures value { result ≡ entries secret.now index }
    ensures small { unsigned_abs result ≤ 2 ^ 31 }
{
    secret.get(index).map_or(0, |z| *z as i64)
}

// The word of an integer.
fn word_of(z: i64, modulus: u32) -> u32
    requires { 0 < modulus }
    ensures { result ≡ word_of modulus z }
{
    z.rem_euclid(modulus as i64) as u32
}

// A constant polynomial.
pub(crate) fn write_constant(within: &Within, z: i64, out: &mut [u32])
    requires { length out.old ≡ within.now.numbers.degree }
    ensures { out.new ≡ constant within.now.numbers z }
{
    out.fill(0);
    out[0] = word_of(z, within.numbers.modulus);
}
