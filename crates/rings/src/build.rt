ghost use Rattle.std.specs.Prelude.{◌≡◌, ℕ, ◌+◌, ◌-◌, ◌*◌, ◌/◌, ◌%◌, ◌^◌, ◌<◌, ◌≤◌, length, slice_index};
ghost use Rattle.rings.specs.Tables.{exponent, Powers};

use crate::ring::Ring;
use crate::tables::{Rows, fill_powers, quotient_of};

// The inverse of 2^log: so many times half of modulus + 1.
fn inverse_of(log: usize, modulus: u32) -> u32
    requires few { log ≤ 10 }
    requires odd { modulus % 2 ≡ 1 }
    requires more { 1 < modulus }
    ensures low { result < modulus }
    ensures one { result * 2 ^ log % modulus ≡ 1 }
{
    let mut powers = [0u32; 11];
    fill_powers(modulus / 2 + 1, modulus, &mut powers);
    powers[log]
}

// The number of bits of x.
fn bits_of(x: u32) -> u32
    requires { 0 < x }
    ensures some { 0 < result }
    ensures few { result ≤ 32 }
    ensures low { 2 ^ (result - 1) ≤ x }
    ensures high { x < 2 ^ result }
{
    x.ilog2() + 1
}

// The quotient of 4^bits by the modulus.
fn mu_of(modulus: u32, bits: u32) -> u32
    requires some { 0 < bits }
    requires few { bits < 32 }
    requires low { 2 ^ (bits - 1) < modulus }
    ensures { result ≡ 2 ^ (bits - 1) * 2 ^ (bits + 1) / modulus }
{
    ((1u64 << (2 * bits)) / modulus as u64) as u32
}

// The ring of numbers that break no rule, from the powers of its root.
pub fn build(degree: usize, log: usize, modulus: u32, root: u32, powers: &[u32]) -> Ring
    requires size { degree ≡ 2 ^ log }
    requires some { 2 ≤ log }
    requires few { log ≤ 10 }
    requires odd { modulus % 2 ≡ 1 }
    requires more { 17 ≤ modulus }
    requires fits { modulus < 2 ^ 31 }
    requires least { 1 ≤ root }
    requires low { root < modulus }
    requires wraps { root ^ degree % modulus ≡ modulus - 1 }
    requires whole { degree ≤ length powers.now }
    requires table { Powers modulus root powers.now }
    ensures { (result.degree ≡ degree) × (result.modulus ≡ modulus) × (result.root ≡ root) }
{
    let half = degree / 2;
    let rows = Rows { log, half };
    let roots = rows.roots(powers);
    let quotients = rows.quotients(modulus, &roots);
    let inverse = inverse_of(log, modulus);
    let sharp = quotient_of(inverse, modulus);
    let bits = bits_of(modulus);
    let mu = mu_of(modulus, bits);
    Ring {
        degree,
        half,
        log,
        modulus,
        root,
        inverse,
        sharp,
        bits,
        mu,
        roots,
        quotients,
    }
}
