ghost use Rattle.std.specs.Prelude.{◌≡◌, ℕ, ◌+◌, ◌-◌, ◌*◌, ◌/◌, ◌%◌, ◌^◌, ◌<◌, ◌≤◌, length, slice_index};
ghost use Rattle.rings.specs.Tables.{exponent};

// Polynomials of `degree` words below `modulus`, where X^degree = -1, and what their transform reads.
// No value of this type lacks a rule of rings, or has another ring's tables.
#[derive(Drop)]
pub struct Ring {
    pub degree: usize,
    pub half: usize,
    pub log: usize,
    pub modulus: u32,
    pub root: u32,
    // 1 / degree, and the quotient that multiplication by it wants
    pub inverse: u32,
    pub sharp: u32,
    // the bits of the modulus, and the quotient of 4^bits by it
    pub bits: u32,
    pub mu: u32,
    // powers of the root, a row of `half` for each of the `log` stages, and their quotients
    // Kept: arrays of the largest ring, since a ring is made with no heap and refused for its listed causes alone.
    pub roots: [u32; 5120],
    pub quotients: [u32; 5120],
    ghost size: { (degree ≡ 2 ^ log) × (half ≡ 2 ^ (log - 1)) × (2 ≤ log) × (log ≤ 10) },
    ghost range: { (4 ≤ degree) × (degree ≤ 1024) × (degree ≡ 2 * half) },
    ghost limits: { (modulus % 2 ≡ 1) × (17 ≤ modulus) × (modulus < 2 ^ 31) × (1 ≤ root) × (root < modulus) },
    ghost wraps: { root ^ degree % modulus ≡ modulus - 1 },
    ghost scale: { (inverse < modulus) × (inverse * degree % modulus ≡ 1) × (sharp ≡ inverse * 2 ^ 32 / modulus) },
    ghost width: { (0 < bits) × (bits < 32) × (2 ^ (bits - 1) ≤ modulus) × (modulus * modulus ≤ 2 ^ (bits - 1) * 2 ^ (bits + 1)) },
    ghost barrett: { mu ≡ 2 ^ (bits - 1) * 2 ^ (bits + 1) / modulus },
    ghost long: { (length roots ≡ 5120) × (length quotients ≡ 5120) },
    ghost powers: { (i : ℕ) → i < log * half → slice_index roots i ≡ root ^ exponent log half i % modulus },
    ghost shoup: { (i : ℕ) → i < log * half → slice_index quotients i ≡ slice_index roots i * 2 ^ 32 / modulus },
}
