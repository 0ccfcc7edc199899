ghost use Rattle.std.specs.Prelude.{◌≡◌, ◌+◌, ◌*◌, ◌/◌, ◌%◌, ◌<◌};
ghost use Rattle.sweeps.specs.Layout.{numbers_of};
ghost use Rattle.sweeps.specs.Meaning.{turns};

use set::checked::Set;

// Y^e as a power of X below 2N. Exponents count modulo q.
pub fn turn_of(set: &Set, e: u32) -> usize
    ensures rest { result ≡ turns (numbers_of set.now) (e % set.now.within.numbers.small) }
    ensures value { result ≡ turns (numbers_of set.now) e % (set.now.within.numbers.degree + set.now.within.numbers.degree) }
    ensures below { result < set.now.within.numbers.degree + set.now.within.numbers.degree }
{
    let q = set.small();
    (2 * set.degree() / q as usize) * (e % q) as usize
}
