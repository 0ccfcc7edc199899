ghost use Rattle.std.specs.Prelude.{◌≡◌, ◌*◌, ◌^◌, ◌<◌, ◌≤◌};
ghost use Rattle.gate.specs.Lengths.{start_length, selectors_length, rows_length, gate_work};
ghost use Rattle.registers.specs.Registers.{numbers_of, wide};

use set::checked::Set;
use sweeps::sweep::Sweep;

// q, as a word.
pub fn small(set: &Set) -> u16
    ensures value { result ≡ (numbers_of set.now).small }
    ensures range { (0 < result) × (result ≤ 2048) }
{
    set.small() as u16
}

// The words of so many registers.
pub fn memory_of(set: &Set, count: u32) -> usize
    ensures { result ≡ count * wide (numbers_of set.now) }
{
    count as usize * set.cipher_words()
}

// The words of the selectors of a sweep.
pub fn selector_words<S: Sweep>(set: &Set) -> usize
    ensures { result ≡ selectors_length (numbers_of set.now) (S.Sweep.count set.now.within) }
{
    set.selector_words(S::selectors(&set.within))
}
