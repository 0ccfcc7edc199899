ghost use Rattle.std.specs.Prelude.{◌≡◌, ℕ, ◌*◌, ◌/◌, ◌^◌, ◌≤◌};
ghost use Rattle.set.specs.Noise.{stated_noise};

use crate::noises::product;
use crate::within::Within;

// The steps of a sweep: one selector for each entry of the small secret, or three for each pair of entries.
#[derive(Clone, Copy, PartialEq, Eq, Debug)]
pub enum Steps {
    Single,
    Paired,
}

impl Steps {
    // The stated noise of a sweep in these steps.
    pub fn stated(self, within: &Within) -> u64
        ensures value { result ≡ stated_noise self within.now.numbers }
        ensures small { result ≤ 2 ^ 55 }
    {
        let n = within.numbers;
        let keys = product(n.degree, n.digits, n.base, n.noise);
        let drops = 2 * (n.dropped / 2) as u64 * n.weight as u64;
        let (steps, selectors) = match self {
            Steps::Single => (n.dimension, 1),
            Steps::Paired => (n.dimension / 2, 3),
        };
        steps as u64 * (selectors * keys + drops)
    }
}
