ghost use Rattle.std.specs.Prelude.{◌≡◌, ℕ, List, [], ◌∷◌, length, replicate};
ghost use Rattle.std.proofs.Common.{sym};
ghost use Rattle.kernels.specs.Lengths.{answer_to, after};
ghost use Rattle.kernels.specs.Polynomials.{poly_of};
ghost use Rattle.kernels.specs.Reduced.{reduced_poly, reduced_same, reduced_twice};
ghost use Rattle.kernels.specs.PlainKernelLemmas.{some};

use crate::kernel::Kernel;
use crate::{lengths, remainders, schoolbook};
use faults::fault::Fault;
use rings::ring::Ring;
use words::guard::Wiped;

// The remainders of the words of a polynomial: turn and back alike.
fn settle(ring: &Ring, words: &mut [u32], scratch: &mut [u32]) -> Result<(), Fault>
    ensures answer { result ≡ answer_to ring.now (length words.old ∷ length scratch.old ∷ []) }
    ensures words { words.new ≡ after result (poly_of ring.now words.old) words.old }
    ensures wiped { scratch.new ≡ replicate (length scratch.old) 0 }
{
    let work = Wiped { words: scratch };
    remainders::admit(ring, words, work.words.len())
}

// The kernel whose forms are the polynomials themselves.
#[derive(Clone, Copy)]
pub struct Plain;

impl Kernel for Plain {
    ghost reads = { λ r w. poly_of r w };

    ghost form = { λ r p. p };

    ghost forms = { record {
      poly = λ r w. reduced_poly r.degree r.modulus w (some r);
      below = λ r p h. h;
      back = λ r p h. sym (reduced_same r.degree r.modulus p h);
      one = λ r w h. sym (reduced_same r.degree r.modulus w h);
      rest = λ r w. reduced_twice r.degree r.modulus w (some r);
    } };

    fn turn(&self, ring: &Ring, words: &mut [u32], scratch: &mut [u32]) -> Result<(), Fault> {
        settle(ring, words, scratch)
    }

    fn fold(&self, ring: &Ring, acc: &mut [u32], left: &[u32], right: &[u32]) -> Result<(), Fault> {
        lengths::check_fold(ring, acc.len(), left.len(), right.len())?;
        schoolbook::fuse(ring, acc, left, right);
        Ok(())
    }

    fn back(&self, ring: &Ring, words: &mut [u32], scratch: &mut [u32]) -> Result<(), Fault> {
        settle(ring, words, scratch)
    }
}
