ghost use Rattle.std.specs.Prelude.{◌≡◌, ℕ, List, [], ◌∷◌, length, replicate};
ghost use Rattle.rings.specs.declared.ring.Ring.{Ring};
ghost use Rattle.kernels.specs.Lengths.{answer_to, after};
ghost use Rattle.kernels.specs.Polynomials.{poly_of};
ghost use Rattle.kernels.specs.Reading.{OneForm, folded};

use faults::fault::Fault;
use rings::ring::Ring;

// A way to keep the polynomials of a ring as forms of as many words. It has no state.
pub trait Kernel {
    // the polynomial that words read as
    ghost reads: { Ring → List ℕ → List ℕ };

    // the one form of words below the modulus that a polynomial has
    ghost form: { Ring → List ℕ → List ℕ };

    // A polynomial becomes its form.
    fn turn(&self, ring: &Ring, words: &mut [u32], scratch: &mut [u32]) -> Result<(), Fault>
        ensures answer { result ≡ answer_to ring.now (length words.old ∷ length scratch.old ∷ []) }
        ensures words { words.new ≡ after result (form ring.now (poly_of ring.now words.old)) words.old }
        ensures wiped { scratch.new ≡ replicate (length scratch.old) 0 };

    // The product of two forms is added to a third.
    fn fold(&self, ring: &Ring, acc: &mut [u32], left: &[u32], right: &[u32]) -> Result<(), Fault>
        ensures answer { result ≡ answer_to ring.now (length acc.old ∷ length left.now ∷ length right.now ∷ []) }
        ensures acc { acc.new ≡ after result (folded reads form ring.now acc.old left.now right.now) acc.old };

    // A form becomes the polynomial that it reads as.
    fn back(&self, ring: &Ring, words: &mut [u32], scratch: &mut [u32]) -> Result<(), Fault>
        ensures answer { result ≡ answer_to ring.now (length words.old ∷ length scratch.old ∷ []) }
        ensures words { words.new ≡ after result (reads ring.now words.old) words.old }
        ensures wiped { scratch.new ≡ replicate (length scratch.old) 0 };

    ghost forms: { OneForm reads form };
}
