ghost use Rattle.std.specs.Prelude.{◌≡◌, [], ◌∷◌};
ghost use Rattle.kernels.specs.Lengths.{answer_to};

use faults::fault::{Fault, Layer};
use faults::lengths::check_length;
use rings::ring::Ring;

// The words and the scratch memory of a turn are N words each.
pub fn check_turn(ring: &Ring, words: usize, scratch: usize) -> Result<(), Fault>
    ensures { result ≡ answer_to ring.now (words ∷ scratch ∷ []) }
{
    check_length(Layer::Kernel, 0, words, ring.degree)?;
    check_length(Layer::Kernel, 1, scratch, ring.degree)
}

// The three forms of a fold are N words each.
pub fn check_fold(ring: &Ring, acc: usize, left: usize, right: usize) -> Result<(), Fault>
    ensures { result ≡ answer_to ring.now (acc ∷ left ∷ right ∷ []) }
{
    check_length(Layer::Kernel, 0, acc, ring.degree)?;
    check_length(Layer::Kernel, 1, left, ring.degree)?;
    check_length(Layer::Kernel, 2, right, ring.degree)
}
