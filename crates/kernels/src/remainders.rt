ghost use Rattle.std.specs.Prelude.{◌≡◌, ℕ, [], ◌∷◌, ◌<◌, ◌↔◌, IsTrue, OnOk, length};
ghost use Rattle.kernels.specs.Lengths.{answer_to, after};
ghost use Rattle.kernels.specs.Polynomials.{Below, InRing, reduced, poly_of};

use crate::lengths;
use faults::fault::Fault;
use rings::ring::Ring;
use words::modulus::Modulus;

// Whether all words lie below the modulus: one pass, with no branch.
fn all_below(words: &[u32], modulus: u32) -> bool
    ensures { IsTrue result ↔ Below modulus words.now }
{
    let mut low = true;
    for word in words {
        low &= *word < modulus;
    }
    low
}

// Each word becomes its remainder.
pub fn divide(words: &mut [u32], modulus: Modulus)
    ensures { words.new ≡ reduced (length words.old) modulus.value words.old }
{
    for word in words.iter_mut() {
        *word %= modulus.value;
    }
}

// Each word becomes its remainder by the modulus; nothing is divided where all words lie below it.
pub fn reduce(ring: &Ring, words: &mut [u32])
    ensures same { words.new ≡ reduced (length words.old) ring.now.modulus words.old }
    ensures below { Below ring.now.modulus words.new }
{
    let modulus = ring.modulus;
    if !all_below(words, modulus) {
        divide(words, Modulus { value: modulus });
    }
}

// How a call begins: the lengths of words and scratch memory are checked, and words become remainders.
pub fn admit(ring: &Ring, words: &mut [u32], room: usize) -> Result<(), Fault>
    ensures answer { result ≡ answer_to ring.now (length words.old ∷ room ∷ []) }
    ensures words { words.new ≡ after result (poly_of ring.now words.old) words.old }
    ensures poly { OnOk result (InRing ring.now words.new) }
{
    lengths::check_turn(ring, words.len(), room)?;
    reduce(ring, words);
    Ok(())
}
