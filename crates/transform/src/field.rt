ghost use Rattle.std.specs.Prelude.{◌≡◌, ℕ, ◌+◌, ◌-◌, ◌*◌, ◌/◌, ◌%◌, ◌^◌, ◌<◌, ◌≤◌};

use rings::ring::Ring;

// The remainder of x, for x below twice the modulus: the sign of x - modulus picks it, with no branch.
pub fn reduce_once(ring: &Ring, x: u32) -> u32
    requires { x < ring.now.modulus + ring.now.modulus }
    ensures { result ≡ x % ring.now.modulus }
{
    // Kept: with `min` here and in subtract a turn at plain x86-64 takes 9.89 microseconds against 7.82.
    let less = x.wrapping_sub(ring.modulus);
    if less < 0x8000_0000 { less } else { x }
}

// u - v modulo the modulus, for both below it.
pub fn subtract(ring: &Ring, u: u32, v: u32) -> u32
    requires left { u < ring.now.modulus }
    requires right { v < ring.now.modulus }
    ensures { result ≡ (u + (ring.now.modulus - v)) % ring.now.modulus }
{
    // Kept: with `min` here and in reduce_once a turn at plain x86-64 takes 9.89 microseconds against 7.82.
    let less = u.wrapping_sub(v);
    if less < 0x8000_0000 {
        less
    } else {
        less.wrapping_add(ring.modulus)
    }
}

// x times a factor whose quotient is known, with no division.
pub fn mul_shoup(ring: &Ring, x: u32, factor: u32, quotient: u32) -> u32
    requires low { factor < ring.now.modulus }
    requires shoup { quotient ≡ factor * 2 ^ 32 / ring.now.modulus }
    ensures { result ≡ x * factor % ring.now.modulus }
{
    let high = ((x as u64 * quotient as u64) >> 32) as u32;
    let rest = x
        .wrapping_mul(factor)
        .wrapping_sub(high.wrapping_mul(ring.modulus));
    reduce_once(ring, rest)
}

// x less m where x is at least m, with no branch.
fn reduce_wide(x: u64, m: u64) -> u64
    requires left { x < 2 ^ 63 }
    requires right { m < 2 ^ 63 }
    ensures low { x < m → result ≡ x }
    ensures high { m ≤ x → result ≡ x - m }
{
    // Kept: with `min` here and in reduce_once a fold at plain x86-64 takes 5.06 microseconds against 2.85.
    let y = x.wrapping_sub(m);
    if y < 0x8000_0000_0000_0000 { y } else { x }
}

// The remainder of a product of two words below the modulus, by the quotient of 4^bits.
pub fn barrett(ring: &Ring, t: u64) -> u32
    requires { t < ring.now.modulus * ring.now.modulus }
    ensures { result ≡ t % ring.now.modulus }
{
    let modulus = ring.modulus as u64;
    let top = (t >> (ring.bits - 1)) as u32;
    let guess = ((top as u64 * ring.mu as u64) >> (ring.bits + 1)) as u32;
    let rest = t - guess as u64 * modulus;
    reduce_wide(reduce_wide(rest, modulus), modulus) as u32
}
