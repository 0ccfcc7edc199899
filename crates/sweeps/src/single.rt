ghost use Rattle.std.specs.Prelude.{◌≡◌, ℕ};
ghost use Rattle.set.specs.Noise.{single_noise};
ghost use Rattle.sweeps.specs.Fit.{entries};
ghost use Rattle.sweeps.specs.Meanings.{single_means, single_closed, constant_poly};
ghost use Rattle.sweeps.specs.Small.{single_few};
ghost use Rattle.sweeps.specs.Steps.{single_steps, single_run, single_message};
ghost use Rattle.sweeps.specs.Walks.{single_taking, single_parts, single_starts, single_goes, single_ends};

use crate::external::Rows;
use crate::sweep::Sweep;
use crate::walk::Step;
use crate::{external, lengths, messages, rotation, walk};
use faults::fault::Fault;
use kernels::kernel::Kernel;
use set::checked::Set;
use set::steps::Steps;
use set::within::Within;

// The sweep with one selector a step, whose message is an entry of the small secret.
#[derive(Clone, Copy)]
pub struct Single;

impl Sweep for Single {
    const PER_STEP: usize = 1;

    ghost each = { 1 };

    ghost defined = { single_run };

    ghost noise = { λ w. single_noise w.numbers };

    ghost count = { λ w. w.numbers.dimension };

    ghost message = { single_message };

    ghost means = { λ set f s exponents keys old long count polys poly fits. single_means set f s exponents keys old long poly fits.ring fits.small fits.selectors };

    ghost closed = { λ set exponents keys old long count polys poly. single_closed set.within exponents keys old poly };

    ghost few = { single_few };

    ghost messages = { λ w s j. constant_poly w (entries s j) };

    fn each_step() -> usize {
        Self::PER_STEP
    }

    fn stated(within: &Within) -> u64 {
        Steps::Single.stated(within)
    }

    fn selectors(within: &Within) -> usize {
        within.numbers.dimension as usize
    }

    fn tell(within: &Within, secret: &[i32], index: usize, out: &mut [u32]) -> Result<(), Fault> {
        lengths::check_message(within, secret.len(), out.len())?;
        messages::write_constant(within, messages::entry(secret, index), out);
        Ok(())
    }

    fn sweep<K: Kernel>(
        &self,
        kernel: &K,
        set: &Set,
        acc: &mut [u32],
        exponents: &[u16],
        keys: &[u32],
        work: &mut [u32],
        scratch: &mut [u32],
    ) -> Result<(), Fault> {
        walk::sweep::<Single, K>(
            kernel,
            set,
            set.dimension(),
            acc,
            exponents,
            keys,
            work,
            scratch,
        )
    }
}

impl Step for Single {
    const EXPONENTS: usize = 1;

    ghost EXPONENTS = { 1 };

    ghost rounds = { λ w. w.numbers.dimension };

    ghost count = { λ w. w.numbers.dimension };

    ghost last = { λ i. i };

    ghost stepped = { single_taking };

    ghost walked = { single_steps };

    ghost run = { single_run };

    ghost parts = { single_parts };

    ghost starts = { single_starts };

    ghost goes = { single_goes };

    ghost ends = { single_ends };

    fn step<K: Kernel>(
        kernel: &K,
        set: &Set,
        acc: &mut [u32],
        exponents: &[u16],
        keys: &[u32],
        i: usize,
        work: &mut [u32],
        scratch: &mut [u32],
    ) {
        let (digits, sum) = work.split_at_mut(set.key_words());
        external::spread(kernel, set, acc, digits, sum, scratch);
        let rows = Rows {
            kernel,
            set,
            digits,
            keys,
        };
        rotation::add_taken(&rows, i, exponents[0] as u32, acc, sum, scratch);
    }
}
