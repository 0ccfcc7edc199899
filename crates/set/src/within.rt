ghost use Rattle.std.specs.Prelude.{◌≡◌, ℕ, ◌*◌, ◌%◌, ◌^◌, ◌<◌, ◌≤◌, false, is_some};
ghost use Rattle.set.specs.Limits.{limits_broken};

use crate::numbers::Numbers;

// Sixteen numbers, each within its limits. The invariant is `fit`; the others are what follows from it at once.
#[derive(Clone, Copy)]
pub struct Within {
    pub numbers: Numbers,
    ghost fit: { is_some (limits_broken numbers) ≡ false },
    ghost lengths: { (16 ≤ numbers.degree) × (numbers.degree ≤ 1024) × (2 ≤ numbers.dimension) × (numbers.dimension ≤ 512) },
    ghost moduli: { (32 ≤ numbers.small) × (numbers.small ≤ 2 * numbers.degree) × (17 ≤ numbers.modulus) × (numbers.modulus < 2 ^ 31) },
    ghost split: { (numbers.dropped ≤ 65536) × (numbers.base ≤ 65536) × (1 ≤ numbers.digits) × (numbers.digits ≤ 31) × (numbers.noise ≤ 1024) },
    ghost secrets: { (numbers.weight ≤ numbers.degree) × (numbers.ones ≤ numbers.dimension) × (numbers.dimension % 2 ≡ 0) },
    ghost switching: { (32 ≤ numbers.switch) × (numbers.switch ≤ 2 ^ 20) × (numbers.radix ≤ 1024) × (1 ≤ numbers.places) × (numbers.places ≤ 20) },
    ghost last: { (numbers.jitter ≤ 1024) × (numbers.bound ≤ 128) },
}
