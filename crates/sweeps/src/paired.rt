ghost use Rattle.std.specs.Prelude.{◌≡◌, ℕ, ◌+◌, ◌*◌, ◌/◌, ◌%◌, ◌^◌, ◌≤◌, pos, ◌-ℤ◌, ◌*ℤ◌, unsigned_abs};
ghost use Rattle.set.specs.Noise.{paired_noise};
ghost use Rattle.sweeps.specs.Fit.{entries};
ghost use Rattle.sweeps.specs.Meanings.{paired_means, paired_closed, constant_poly};
ghost use Rattle.sweeps.specs.Small.{paired_few};
ghost use Rattle.sweeps.specs.Steps.{number_of, pair_part, paired_steps, paired_run, paired_message};
ghost use Rattle.sweeps.specs.Walks.{paired_taking, paired_parts, paired_starts, paired_goes, paired_ends};

use crate::external::Rows;
use crate::sweep::Sweep;
use crate::walk::Step;
use crate::{external, lengths, messages, rotation, walk};
use faults::fault::Fault;
use kernels::kernel::Kernel;
use set::checked::Set;
use set::steps::Steps;
use set::within::Within;

// The product of two entries, or of an entry and 1 less an entry.
fn times(a: i64, b: i64) -> i64
    requires one { unsigned_abs a ≤ 2 ^ 31 }
    requires two { unsigned_abs b ≤ 2 ^ 31 + 1 }
    ensures { result ≡ a *ℤ b }
{
    a * b
}

// 1 less an entry.
fn other(a: i64) -> i64
    requires { unsigned_abs a ≤ 2 ^ 31 }
    ensures value { result ≡ pos 1 -ℤ a }
    ensures small { unsigned_abs result ≤ 2 ^ 31 + 1 }
{
    1 - a
}

// A selector of a pair of bits s and t, by its message: s t, s (1 - t) or t (1 - s).
#[derive(Clone, Copy)]
enum Part {
    Both,
    First,
    Second,
}

impl Part {
    // The selectors of all pairs stand one after the other.
    fn of(index: usize) -> Part
        ensures { number_of result ≡ index % 3 }
    {
        match index % 3 {
            0 => Part::Both,
            1 => Part::First,
            _ => Part::Second,
        }
    }

    fn message(self, s: i64, t: i64) -> i64
        requires one { unsigned_abs s ≤ 2 ^ 31 }
        requires two { unsigned_abs t ≤ 2 ^ 31 }
        ensures { result ≡ pair_part (number_of self) s t }
    {
        match self {
            Part::Both => times(s, t),
            Part::First => times(s, other(t)),
            Part::Second => times(t, other(s)),
        }
    }
}

// The sweep with three selectors a step, for two entries of the small secret.
#[derive(Clone, Copy)]
pub struct Paired;

impl Sweep for Paired {
    const PER_STEP: usize = 3;

    ghost each = { 3 };

    ghost defined = { paired_run };

    ghost noise = { λ w. paired_noise w.numbers };

    ghost count = { λ w. 3 * (w.numbers.dimension / 2) };

    ghost message = { paired_message };

    ghost means = { λ set f s exponents keys old long count polys poly fits. paired_means set f s exponents keys old long poly fits.ring fits.small fits.selectors };

    ghost closed = { λ set exponents keys old long count polys poly. paired_closed set.within exponents keys old poly };

    ghost few = { paired_few };

    ghost messages = { λ w s j. constant_poly w (pair_part (j % 3) (entries s (2 * (j / 3))) (entries s (2 * (j / 3) + 1))) };

    fn each_step() -> usize {
        Self::PER_STEP
    }

    fn stated(within: &Within) -> u64 {
        Steps::Paired.stated(within)
    }

    fn selectors(within: &Within) -> usize {
        3 * (within.numbers.dimension as usize / 2)
    }

    fn tell(within: &Within, secret: &[i32], index: usize, out: &mut [u32]) -> Result<(), Fault> {
        lengths::check_message(within, secret.len(), out.len())?;
        let first = 2 * (index / 3);
        let s = messages::entry(secret, first);
        let t = messages::entry(secret, first + 1);
        messages::write_constant(within, Part::of(index).message(s, t), out);
        Ok(())
    }

    fn sweep<K: Kernel>(
        &self,
        kernel: &K,
        set: &Set,
        acc: &mut [u32],
        exponents: &[u16],
        keys: &[u32],
        work: &mut [u32],
        scratch: &mut [u32],
    ) -> Result<(), Fault> {
        walk::sweep::<Paired, K>(
            kernel,
            set,
            3 * (set.dimension() / 2),
            acc,
            exponents,
            keys,
            work,
            scratch,
        )
    }
}

impl Step for Paired {
    const EXPONENTS: usize = 2;

    ghost EXPONENTS = { 2 };

    ghost rounds = { λ w. w.numbers.dimension / 2 };

    ghost count = { λ w. 3 * (w.numbers.dimension / 2) };

    ghost last = { λ i. 3 * i + 2 };

    ghost stepped = { paired_taking };

    ghost walked = { paired_steps };

    ghost run = { paired_run };

    ghost parts = { paired_parts };

    ghost starts = { paired_starts };

    ghost goes = { paired_goes };

    ghost ends = { paired_ends };

    // The digits are split and turned once, and all three selectors take the old accumulator.
    fn step<K: Kernel>(
        kernel: &K,
        set: &Set,
        acc: &mut [u32],
        exponents: &[u16],
        keys: &[u32],
        i: usize,
        work: &mut [u32],
        scratch: &mut [u32],
    ) {
        let (digits, sum) = work.split_at_mut(set.key_words());
        external::spread(kernel, set, acc, digits, sum, scratch);
        let rows = Rows {
            kernel,
            set,
            digits,
            keys,
        };
        let a = exponents[0] as u32;
        let b = exponents[1] as u32;
        rotation::add_taken(&rows, 3 * i, a + b, acc, sum, scratch);
        rotation::add_taken(&rows, 3 * i + 1, a, acc, sum, scratch);
        rotation::add_taken(&rows, 3 * i + 2, b, acc, sum, scratch);
    }
}
