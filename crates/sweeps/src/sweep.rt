ghost use Rattle.std.specs.Prelude.{◌≡◌, ℕ, ◌*◌, ◌<◌, List, length, replicate, ℤ};
ghost use Rattle.faults.specs.Least.{told};
ghost use Rattle.kernels.specs.Lengths.{after};
ghost use Rattle.kernels.specs.Polynomials.{poly_of};
ghost use Rattle.set.specs.declared.numbers.Numbers.{Numbers};
ghost use Rattle.set.specs.declared.within.Within.{Within};
ghost use Rattle.sweeps.specs.Forms.{read_rows};
ghost use Rattle.sweeps.specs.Meaning.{Means, Closed, Few, Told, sweep_refused, message_refused};

use faults::fault::Fault;
use kernels::kernel::Kernel;
use set::checked::Set;
use set::within::Within;

// A sweep turns an accumulator, n exponents and its keys into a new accumulator.
pub trait Sweep {
    // how many selectors one step takes
    const PER_STEP: usize;

    // the same, for clauses
    ghost each: { ℕ };

    // the new accumulator, from the numbers of the set, the exponents and the polynomials of the selectors and of the old accumulator
    ghost defined: { Numbers → List ℕ → List (List ℕ) → List ℕ → List ℕ };

    // the stated noise, and how many selectors the sweep takes
    ghost noise: { Within → ℕ };

    ghost count: { Within → ℕ };

    // the message of each selector, told from the small secret
    ghost message: { Within → List ℤ → ℕ → List ℕ };

    fn each_step() -> usize
        ensures { result ≡ each };

    fn stated(within: &Within) -> u64
        ensures { result ≡ noise within.now };

    fn selectors(within: &Within) -> usize
        ensures { result ≡ count within.now };

    // The message of selector `index` under a small secret.
    fn tell(within: &Within, secret: &[i32], index: usize, out: &mut [u32]) -> Result<(), Fault>
        ensures answer { result ≡ told (message_refused within.now.numbers (length secret.now) (length out.old)) }
        ensures out { out.new ≡ after result (message within.now secret.now index) out.old };

    // The accumulator becomes the new one.
    fn sweep<K: Kernel>(
        &self,
        kernel: &K,
        set: &Set,
        acc: &mut [u32],
        exponents: &[u16],
        keys: &[u32],
        work: &mut [u32],
        scratch: &mut [u32],
    ) -> Result<(), Fault>
        ensures answer { result ≡ told (sweep_refused set.now.within.numbers (count set.now.within) (length acc.old) (length exponents.now) (length keys.now) (length work.old) (length scratch.old)) }
        ensures acc { acc.new ≡ after result (defined set.now.within.numbers exponents.now (read_rows (K.Kernel.reads set.now.ring) set.now.within.numbers.degree (count set.now.within * set.now.within.numbers.digits) keys.now) (poly_of set.now.ring acc.old)) acc.old }
        ensures work { work.new ≡ replicate (length work.old) 0 }
        ensures scratch { scratch.new ≡ replicate (length scratch.old) 0 };

    ghost means: { Means defined noise count message };

    ghost closed: { Closed defined count };

    ghost few: { Few noise count };

    ghost messages: { Told message };
}
