ghost use Rattle.std.specs.Prelude.{◌≡◌, ℕ, ◌+◌, ◌*◌, ◌/◌, ◌^◌, ◌<◌, ◌≤◌};
ghost use Rattle.set.specs.Noise.{swept_noise, switch_noise};

use crate::numbers::Numbers;
use crate::within::Within;

// The product of a length, digits, a base or its half, and a noise.
pub(crate) fn product(length: u32, digits: u32, base: u32, noise: u32) -> u64
    requires length { length ≤ 1024 }
    requires digits { digits ≤ 31 }
    requires base { base ≤ 65536 }
    requires noise { noise ≤ 1024 }
    ensures value { result ≡ length * digits * base * noise }
    ensures small { result ≤ 31 * 2 ^ 36 }
{
    length as u64 * digits as u64 * base as u64 * noise as u64
}

// V: the noise of the start key and of the sweep.
pub fn swept(within: &Within, stated: u64) -> u128
    ensures value { result ≡ swept_noise within.now.numbers stated }
    ensures small { result ≤ 2 ^ 65 }
{
    let n = within.numbers;
    let keys = product(n.degree, n.digits, n.base / 2, n.noise);
    keys as u128 + (n.dropped / 2) as u128 + stated as u128
}

// W: the noise of the switch.
pub fn switched(within: &Within) -> u64
    ensures value { result ≡ switch_noise within.now.numbers }
    ensures small { result ≤ 31 * 2 ^ 36 }
{
    let n = within.numbers;
    product(n.degree, n.places, n.radix / 2, n.jitter)
}
