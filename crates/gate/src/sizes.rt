ghost use Rattle.std.specs.Prelude.{◌≡◌, ◌+◌, ◌*◌, ◌^◌, ◌<◌, ◌≤◌};
ghost use Rattle.gate.specs.Lengths.{gate_work};

use set::checked::Set;

// The words of a gate's work memory: that of a sweep, an accumulator, two samples and a ciphertext.
pub fn gate_words(set: &Set) -> usize
    ensures value { result ≡ gate_work set.now.within.numbers }
    ensures range { result < 2 ^ 20 }
{
    set.sweep_words() + set.degree() + set.sample_words() + set.sample_words() + set.cipher_words()
}
