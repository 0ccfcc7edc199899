ghost use Rattle.std.specs.Prelude.{◌≡◌, ℕ, ◌*◌, length, replicate};
ghost use Rattle.kernels.specs.Polynomials.{reduced};
ghost use Rattle.gate.specs.Keys.{selectors_of};
ghost use Rattle.gate.specs.Lengths.{staged, wrote, spent, words_of, selectors_length, sweep_work, sweep_refused};
ghost use Rattle.gate.specs.Stages.{swept_of};

use super::{Declined, Started, Swept};
use crate::lengths::check_sweep;
use kernels::kernel::Kernel;
use set::checked::Set;
use sweeps::sweep::Sweep;
use words::guard::Wiped;

// The accumulator turned by n exponents.
fn turn<K: Kernel, S: Sweep>(
    kernel: &K,
    sweep: &S,
    set: &Set,
    exponents: &[u16],
    acc: &mut [u32],
    keys: &[u32],
    work: &mut [u32],
    scratch: &mut [u32],
)
    requires exponents { length exponents.now ≡ set.now.within.numbers.dimension }
    requires acc { length acc.old ≡ set.now.within.numbers.degree }
    requires keys { length keys.now ≡ selectors_length set.now.within.numbers (S.Sweep.count set.now.within) }
    requires work { length work.old ≡ sweep_work set.now.within.numbers }
    requires scratch { length scratch.old ≡ set.now.within.numbers.degree }
    ensures acc { acc.new ≡ S.Sweep.defined set.now.within.numbers exponents.now (selectors_of K.Kernel.reads S.Sweep.count set.now keys.now) (reduced set.now.within.numbers.degree set.now.within.numbers.modulus acc.old) }
    ensures work { work.new ≡ replicate (length work.old) 0 }
    ensures scratch { scratch.new ≡ replicate (length scratch.old) 0 }
{
    let _ = sweep.sweep(kernel, set, acc, exponents, keys, work, scratch);
}

// The same, of lists that have their lengths.
pub(crate) fn sweep_right<K: Kernel, S: Sweep>(
    kernel: &K,
    sweep: &S,
    set: &Set,
    combined: &mut [u16],
    acc: &mut [u32],
    keys: &[u32],
    work: &mut [u32],
    scratch: &mut [u32],
    token: Started,
) -> Swept
    requires combined { length combined.old ≡ words_of set.now.within.numbers }
    requires acc { length acc.old ≡ set.now.within.numbers.degree }
    requires keys { length keys.now ≡ selectors_length set.now.within.numbers (S.Sweep.count set.now.within) }
    requires work { length work.old ≡ sweep_work set.now.within.numbers }
    requires scratch { length scratch.old ≡ set.now.within.numbers.degree }
    ensures token { result.words ≡ set.now.within.numbers.degree }
    ensures combined { combined.new ≡ replicate (length combined.old) 0 }
    ensures acc { acc.new ≡ swept_of S.Sweep.defined set.now.within.numbers (selectors_of K.Kernel.reads S.Sweep.count set.now keys.now) combined.old acc.old }
    ensures work { work.new ≡ replicate (length work.old) 0 }
    ensures scratch { scratch.new ≡ replicate (length scratch.old) 0 }
{
    let Started { words: _ } = token;
    let count = set.dimension();
    turn(
        kernel,
        sweep,
        set,
        &combined[0..count],
        acc,
        keys,
        work,
        scratch,
    );
    combined.fill(0);
    Swept { words: acc.len() }
}

// The third stage, blind rotation: the accumulator is turned by the exponents a, which are used up.
pub fn sweep<K: Kernel, S: Sweep>(
    kernel: &K,
    sweep: &S,
    set: &Set,
    combined: &mut [u16],
    acc: &mut [u32],
    keys: &[u32],
    work: &mut [u32],
    scratch: &mut [u32],
    token: Started,
) -> Result<Swept, Declined<Started>>
    ensures answer { result ≡ staged (sweep_refused set.now.within.numbers (S.Sweep.count set.now.within) (length combined.old) (length acc.old) (length keys.now) (length work.old) (length scratch.old)) (record { words = set.now.within.numbers.degree }) token }
    ensures combined { combined.new ≡ spent result combined.old }
    ensures acc { acc.new ≡ wrote result (swept_of S.Sweep.defined set.now.within.numbers (selectors_of K.Kernel.reads S.Sweep.count set.now keys.now) combined.old acc.old) acc.old }
    ensures work { work.new ≡ replicate (length work.old) 0 }
    ensures scratch { scratch.new ≡ replicate (length scratch.old) 0 }
{
    let room = Wiped { words: work };
    let spare = Wiped { words: scratch };
    let token = Declined::unless(
        check_sweep(
            set,
            S::selectors(&set.within),
            combined,
            acc,
            keys,
            room.words,
            spare.words,
        ),
        token,
    )?;
    Ok(sweep_right(
        kernel,
        sweep,
        set,
        combined,
        acc,
        keys,
        room.words,
        spare.words,
        token,
    ))
}
