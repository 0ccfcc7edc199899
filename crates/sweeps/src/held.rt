ghost use Rattle.std.specs.Prelude.{◌≡◌, ℕ, ◌+◌, ◌-◌, ◌*◌, ◌/◌, ◌%◌, ◌^◌, ◌<◌, ◌≤◌, pos, ◌+ℤ◌};
ghost use Rattle.algebra.specs.Ints.{floor_z};
ghost use Rattle.algebra.specs.Digits.{centred, digit_of};
ghost use Rattle.algebra.specs.Words.{word_of};
ghost use Rattle.sweeps.specs.Held.{under, Held};

use words::modulus::Modulus;

// Half of 2^width, rounded down.
fn half_of(width: u32) -> u32
    requires { width ≤ 16 }
    ensures value { result ≡ 2 ^ width / 2 }
    ensures small { result ≤ 32768 }
{
    (1u32 << width) >> 1
}

// The representative of a word above -Q/2 and at most Q/2.
pub fn centre(word: u32, modulus: Modulus) -> u32
    requires { word < modulus.value }
    ensures value { under result ≡ centred modulus.value word }
    ensures held { Held modulus.value result }
{
    if modulus.value < 2 * word {
        word + (0x8000_0000 - modulus.value)
    } else {
        word + 0x8000_0000
    }
}

// The quotient by 2^width, rounded to the nearest.
pub fn quotient(x: u32, width: u32, modulus: Modulus) -> u32
    requires width { width ≤ 16 }
    requires held { Held modulus.value x }
    ensures value { under result ≡ floor_z (under x +ℤ pos (2 ^ width / 2)) (2 ^ width) }
    ensures held { Held modulus.value result }
{
    let top = 0x8000_0000u32;
    ((x + half_of(width)) >> width) + (top - (top >> width))
}

// The balanced digit in base 2^width, as a word.
pub fn digit_word(x: u32, width: u32, modulus: Modulus) -> u32
    requires width { (1 ≤ width) × (width ≤ 16) }
    requires held { Held modulus.value x }
    ensures { result ≡ word_of modulus.value (digit_of (2 ^ width) (under x)) }
{
    let half = half_of(width);
    let low = (x + half) & ((1u32 << width) - 1);
    if low < half {
        low + modulus.value - half
    } else {
        low - half
    }
}

// The number itself, as a word.
pub fn whole_word(x: u32, modulus: Modulus) -> u32
    requires { Held modulus.value x }
    ensures { result ≡ word_of modulus.value (under x) }
{
    if x < 0x8000_0000 {
        x + modulus.value - 0x8000_0000
    } else {
        x - 0x8000_0000
    }
}
