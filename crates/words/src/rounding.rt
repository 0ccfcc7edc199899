ghost use Rattle.std.specs.Prelude.{◌≡◌, ℕ, ◌<◌};
ghost use Rattle.words.specs.Rounding.{rounded_to};

use crate::modulus::Modulus;

// A word of one modulus, rounded to another.
pub fn rounded(word: u32, from: &Modulus, to: &Modulus) -> u32
    ensures value { result ≡ rounded_to from.now.value to.now.value word }
    ensures below { result < to.now.value }
{
    let r = from.get() as u64;
    let s = to.get() as u64;
    let c = word as u64 % r;
    ((2 * c * s + r) / (2 * r) % s) as u32
}
