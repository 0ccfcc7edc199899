ghost use Rattle.std.specs.Prelude.{◌≡◌, ℕ, ◌+◌, ◌-◌, ◌*◌, ◌%◌, ◌^◌, ◌<◌, ◌≤◌, length, not};
ghost use Rattle.algebra.specs.Sweeps.{stepped};
ghost use Rattle.algebra.specs.Words.{coeffs, words};
ghost use Rattle.kernels.specs.Polynomials.{Below, InRing};
ghost use Rattle.sweeps.specs.External.{ForDigits, added_by};
ghost use Rattle.sweeps.specs.Layout.{numbers_of, words_in, key_end};
ghost use Rattle.sweeps.specs.Meaning.{turns};
ghost use Rattle.sweeps.specs.Mixing.{is_minus, mixed, mixed_poly, MixedEach};

use crate::external::Rows;
use crate::turn::turn_of;
use kernels::kernel::Kernel;
use set::checked::Set;
use words::modulus::Modulus;

// The remainder of a number below 2Q.
// Kept: transform has this for a ring; it asks for a bound, and what other crates call asks nothing, so each has its own.
fn once(x: u32, modulus: u32) -> u32
    requires { x < 2 * modulus }
    ensures { result ≡ x % modulus }
{
    if x >= modulus { x - modulus } else { x }
}

// The sign with which a coefficient moves: what passes the end comes back with the other.
#[derive(Clone, Copy)]
enum Sign {
    Plus,
    Minus,
}

impl Sign {
    fn other(self) -> Sign
        ensures { is_minus result ≡ not (is_minus self) }
    {
        match self {
            Sign::Plus => Sign::Minus,
            Sign::Minus => Sign::Plus,
        }
    }
}

// a + moved - still, or a - moved - still.
fn mix(a: u32, moved: u32, still: u32, sign: Sign, modulus: Modulus) -> u32
    requires one { a < modulus.value }
    requires two { moved < modulus.value }
    requires three { still < modulus.value }
    ensures { result ≡ mixed modulus.value (is_minus sign) a moved still }
{
    let added = match sign {
        Sign::Plus => moved,
        Sign::Minus => modulus.value - moved,
    };
    let q = modulus.value;
    once(once(a + added, q) + (q - still), q)
}

// The same at each place.
fn mix_each(acc: &mut [u32], moved: &[u32], still: &[u32], sign: Sign, modulus: Modulus)
    requires moves { length moved.now ≡ length acc.old }
    requires stays { length still.now ≡ length acc.old }
    requires acc { Below modulus.value acc.old }
    requires moved { Below modulus.value moved.now }
    requires still { Below modulus.value still.now }
    ensures { MixedEach modulus.value (is_minus sign) moved.now still.now acc.old acc.new }
{
    for (k, a) in acc.iter_mut().enumerate() {
        *a = mix(*a, moved[k], still[k], sign, modulus);
    }
}

// X^j T - T is added, or -X^j T - T, for j at most N.
fn mix_all(acc: &mut [u32], sum: &[u32], j: usize, sign: Sign, modulus: Modulus)
    requires long { length sum.now ≡ length acc.old }
    requires place { j ≤ length acc.old }
    requires acc { Below modulus.value acc.old }
    requires sum { Below modulus.value sum.now }
    ensures { acc.new ≡ words (length acc.old) modulus.value (mixed_poly (length acc.old) (is_minus sign) j sum.now acc.old) }
{
    let (stay, back) = sum.split_at(sum.len() - j);
    let (below, above) = sum.split_at(j);
    let (low, high) = acc.split_at_mut(j);
    mix_each(low, back, below, sign.other(), modulus);
    mix_each(high, stay, above, sign, modulus);
}

// (X^turn - 1) T is added, for a turn below 2N.
fn mix_turned(acc: &mut [u32], sum: &[u32], turn: usize, modulus: Modulus)
    requires long { length sum.now ≡ length acc.old }
    requires turn { turn < length acc.old + length acc.old }
    requires acc { Below modulus.value acc.old }
    requires sum { Below modulus.value sum.now }
    ensures { acc.new ≡ words (length acc.old) modulus.value (stepped (length acc.old) turn (coeffs sum.now) (coeffs acc.old)) }
{
    let n = acc.len();
    if turn < n {
        mix_all(acc, sum, turn, Sign::Plus, modulus);
    } else {
        mix_all(acc, sum, turn - n, Sign::Minus, modulus);
    }
}

// (Y^e - 1) T is added to an accumulator.
fn turn_onto(set: &Set, acc: &mut [u32], sum: &[u32], e: u32)
    requires acc { InRing set.now.ring acc.old }
    requires sum { InRing set.now.ring sum.now }
    ensures value { acc.new ≡ words_in set.now (stepped set.now.within.numbers.degree (turns (numbers_of set.now) e) (coeffs sum.now) (coeffs acc.old)) }
    ensures poly { InRing set.now.ring acc.new }
{
    mix_turned(acc, sum, turn_of(set, e), set.gadget().modulus);
}

// (Y^e - 1) times what the rows' accumulator is when it is taken by key j is added to an accumulator.
pub(crate) fn add_taken<K: Kernel>(
    rows: &Rows<K>,
    j: usize,
    e: u32,
    acc: &mut [u32],
    sum: &mut [u32],
    scratch: &mut [u32],
)
    requires acc { InRing rows.now.set.now.ring acc.old }
    requires keys { key_end rows.now.set.now j * rows.now.set.now.within.numbers.degree ≤ length rows.now.keys.now }
    requires sum { length sum.old ≡ rows.now.set.now.within.numbers.degree }
    requires scratch { length scratch.old ≡ rows.now.set.now.within.numbers.degree }
    ensures value { ForDigits K.Kernel.reads rows.now.set.now j rows.now.keys.now rows.now.digits.now (added_by (numbers_of rows.now.set.now) j e acc.old) acc.new }
    ensures poly { InRing rows.now.set.now.ring acc.new }
{
    rows.collect(j, sum, scratch);
    turn_onto(rows.set, acc, sum, e);
}
