ghost use Rattle.std.specs.Prelude.{◌≡◌, ℕ, suc, ⊤, map, ◌+◌, ◌-◌, ◌*◌, ◌/◌, ◌%◌, ◌^◌, ◌<◌, ◌≤◌, length, take, drop, pos, ◌+ℤ◌, ◌-ℤ◌, ◌*ℤ◌, if◌then◌else◌, nat_eq};
ghost use Rattle.algebra.specs.Words.{coeffs, word_of};
ghost use Rattle.algebra.specs.Gates.{combine, invert, extracted, extract, narrow};

use words::modulus::Modulus;
use words::rounding::rounded;

// A number less another one, modulo q.
pub fn minus(head: u32, number: u32, modulus: Modulus) -> u32
    requires { head < 2 ^ 31 }
    ensures value { result ≡ word_of modulus.value (pos head -ℤ pos number) }
    ensures below { result < modulus.value }
{
    let q = modulus.value;
    (head + q - number % q) % q
}

// The number at the last place, and 0 at the others.
// Kept: the last place apart would be a second line with the same difference in both loops, which is no plainer.
fn at_last(i: usize, last: usize, head: u32) -> u32
    ensures { result ≡ (if nat_eq i last then head else 0) }
{
    if i == last { head } else { 0 }
}

// Two words added, and this t times.
fn added(times: u32, a: u16, b: u16) -> u32
    requires { times ≤ 2 }
    ensures { result ≡ times * (a + b) }
{
    times * (a as u32 + b as u32)
}

// n + 1 words of x and y, combined: the offset o q/8 at the last place, less t times both.
pub fn combine_words(
    last: usize,
    modulus: Modulus,
    offset: u32,
    times: u32,
    x: &[u16],
    y: &[u16],
    out: &mut [u16],
)
    requires few { modulus.value ≤ 2048 }
    requires offset { offset ≤ 7 }
    requires times { times ≤ 2 }
    requires x { length x.now ≡ last + 1 }
    requires y { length y.now ≡ last + 1 }
    requires out { length out.old ≡ last + 1 }
    ensures { out.new ≡ combine last modulus.value offset times x.now y.now }
{
    let head = offset * (modulus.value / 8);
    for (i, word) in out.iter_mut().enumerate() {
        *word = minus(at_last(i, last, head), added(times, x[i], y[i]), modulus) as u16;
    }
}

// n + 1 words become those of the opposite bit.
pub fn invert_words(last: usize, modulus: Modulus, words: &mut [u16])
    requires few { modulus.value ≤ 2048 }
    requires words { length words.old ≡ last + 1 }
    ensures { words.new ≡ invert last modulus.value words.old }
{
    let head = modulus.value / 4;
    for (i, word) in words.iter_mut().enumerate() {
        *word = minus(at_last(i, last, head), *word as u32, modulus) as u16;
    }
}

// Word j of an accumulator, extracted: the first as it is, the others from the end with their signs turned, and last δ.
fn extracted_at(degree: usize, modulus: Modulus, acc: &[u32], j: usize) -> u32
    requires acc { length acc.now ≡ degree }
    requires long { 0 < degree }
    requires place { j ≤ degree }
    ensures { result ≡ word_of modulus.value (extracted degree (pos (modulus.value / 8)) (coeffs acc.now) j) }
{
    if j == degree {
        return modulus.value / 8;
    }
    if j == 0 {
        return acc[0] % modulus.value;
    }
    minus(0, acc[degree - j], modulus)
}

// The N words of an accumulator, extracted to N + 1.
pub fn extract_words(degree: usize, modulus: Modulus, acc: &[u32], out: &mut [u32])
    requires long { 0 < degree }
    requires acc { length acc.now ≡ degree }
    requires out { length out.old ≡ degree + 1 }
    ensures { out.new ≡ extract degree modulus.value acc.now }
{
    for (j, word) in out.iter_mut().enumerate() {
        *word = extracted_at(degree, modulus, acc, j);
    }
}

// A number of some bits.
pub trait Word: Drop {
    ghost number: { Self → ℕ };

    ghost CanHold: { ℕ → Type 0 };

    fn of(value: u32) -> Self
        requires { CanHold value }
        ensures { number result ≡ value };
}

impl Word for u32 {
    ghost number = { λ x. x };

    ghost CanHold = { λ _. ⊤ };

    fn of(value: u32) -> u32 {
        value
    }
}

impl Word for u16 {
    ghost number = { λ x. x };

    ghost CanHold = { λ n. n < 2 ^ 16 };

    fn of(value: u32) -> u16 {
        value as u16
    }
}

// Words of one modulus rounded to another.
pub fn narrow_words<W: Word>(from: Modulus, to: Modulus, words: &[u32], out: &mut [W])
    requires few { (n : ℕ) → n < to.value → W.CanHold n }
    requires pair { length words.now ≡ length out.old }
    ensures { map W.number out.new ≡ narrow (length out.old) from.value to.value words.now }
{
    for (i, word) in out.iter_mut().enumerate() {
        *word = W::of(rounded(words[i], &from, &to));
    }
}
