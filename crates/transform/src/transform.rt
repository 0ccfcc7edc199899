ghost use Rattle.transform.specs.Reads.{reads};
ghost use Rattle.transform.specs.Values.{values};
ghost use Rattle.transform.specs.Reading.{one_form};

use crate::{pointwise, stages};
use faults::fault::Fault;
use kernels::kernel::Kernel;
use kernels::{lengths, remainders};
use rings::ring::Ring;
use words::guard::Wiped;

// The kernel whose forms are the values at the odd powers of the root, in the order of mirrored places.
#[derive(Clone, Copy)]
pub struct Transform;

impl Kernel for Transform {
    ghost reads = { λ r w. reads r w };

    ghost form = { λ r p. values r p };

    ghost forms = { one_form };

    fn turn(&self, ring: &Ring, words: &mut [u32], scratch: &mut [u32]) -> Result<(), Fault> {
        let work = Wiped { words: scratch };
        remainders::admit(ring, words, work.words.len())?;
        stages::evaluate(ring, words, work.words);
        Ok(())
    }

    fn fold(&self, ring: &Ring, acc: &mut [u32], left: &[u32], right: &[u32]) -> Result<(), Fault> {
        lengths::check_fold(ring, acc.len(), left.len(), right.len())?;
        pointwise::fold_forms(ring, acc, left, right);
        Ok(())
    }

    fn back(&self, ring: &Ring, words: &mut [u32], scratch: &mut [u32]) -> Result<(), Fault> {
        let work = Wiped { words: scratch };
        remainders::admit(ring, words, work.words.len())?;
        stages::descend(ring, words, work.words);
        pointwise::scale(ring, words);
        Ok(())
    }
}
