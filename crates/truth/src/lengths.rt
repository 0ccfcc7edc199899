ghost use Rattle.std.specs.Prelude.{◌≡◌, ◌+◌, ◌*◌, ◌^◌, ◌<◌, ◌≤◌};

use set::checked::Set;

// The words of the switch rows of one entry of f: a row for each place.
pub fn entry_words(set: &Set) -> usize
    ensures value { result ≡ set.now.within.numbers.places * (set.now.within.numbers.dimension + 1) }
    ensures range { (0 < result) × (result ≤ 2 ^ 15) }
{
    set.places() * (set.dimension() + 1)
}
