ghost use Rattle.std.specs.Prelude.{◌≡◌, ℕ, ◌+◌, ◌*◌, ◌^◌, ◌<◌, ◌≤◌, List, length, replicate};
ghost use Rattle.faults.specs.Least.{told};
ghost use Rattle.kernels.specs.Lengths.{after};
ghost use Rattle.kernels.specs.Polynomials.{InRing, poly_of};
ghost use Rattle.set.specs.declared.numbers.Numbers.{Numbers};
ghost use Rattle.set.specs.declared.within.Within.{Within};
ghost use Rattle.sweeps.specs.Forms.{read_rows};
ghost use Rattle.sweeps.specs.Layout.{numbers_of, work_long, key_end, polys_in};
ghost use Rattle.sweeps.specs.Meaning.{sweep_refused};
ghost use Rattle.sweeps.specs.Walks.{Starts, Goes, Ends};

use crate::lengths::{Lengths, check_sweep};
use faults::fault::Fault;
use kernels::kernel::Kernel;
use kernels::remainders;
use set::checked::Set;
use words::guard::Wiped;

// One step of a sweep.
pub(crate) trait Step {
    // how many exponents one step takes
    const EXPONENTS: usize;

    ghost EXPONENTS: { ℕ };

    // how many steps and selectors there are, and the last selector of a step
    ghost rounds: { Within → ℕ };

    ghost count: { Within → ℕ };

    ghost last: { ℕ → ℕ };

    // step i, from the polynomials of the selectors, its exponents and the accumulator
    ghost stepped: { Numbers → List (List ℕ) → ℕ → List ℕ → List ℕ → List ℕ };

    // the first i steps in turn, and all of them
    ghost walked: { Numbers → List ℕ → List (List ℕ) → ℕ → List ℕ → List ℕ };

    ghost run: { Numbers → List ℕ → List (List ℕ) → List ℕ → List ℕ };

    // Kept: eight parameters: three are `&mut`, which in a struct need longer clauses, and kernel and set in one, as Rows has them, put a field before each `set.now` here.
    fn step<K: Kernel>(
        kernel: &K,
        set: &Set,
        acc: &mut [u32],
        exponents: &[u16],
        keys: &[u32],
        i: usize,
        work: &mut [u32],
        scratch: &mut [u32],
    )
        requires acc { InRing set.now.ring acc.old }
        requires exponents { length exponents.now ≡ EXPONENTS }
        requires keys { key_end set.now (last i) * set.now.within.numbers.degree ≤ length keys.now }
        requires work { length work.old ≡ work_long set.now }
        requires scratch { length scratch.old ≡ set.now.within.numbers.degree }
        requires few { i ≤ 512 }
        ensures value { (total : ℕ) → key_end set.now (last i) ≤ total → acc.new ≡ stepped (numbers_of set.now) (polys_in K.Kernel.reads set.now total keys.now) i exponents.now acc.old }
        ensures poly { InRing set.now.ring acc.new };

    ghost parts: { (w : Within) → (0 < EXPONENTS) × (rounds w * EXPONENTS ≡ w.numbers.dimension) × (count w ≤ 2 ^ 14) × ((i : ℕ) → i < rounds w → last i < count w) };

    ghost starts: { Starts walked };

    ghost goes: { Goes EXPONENTS stepped walked };

    ghost ends: { Ends rounds walked run };
}

// All steps, with rising i.
fn steps<S: Step, K: Kernel>(
    kernel: &K,
    set: &Set,
    acc: &mut [u32],
    exponents: &[u16],
    keys: &[u32],
    work: &mut [u32],
    scratch: &mut [u32],
)
    requires acc { InRing set.now.ring acc.old }
    requires exponents { length exponents.now ≡ set.now.within.numbers.dimension }
    requires keys { length keys.now ≡ S.count set.now.within * set.now.within.numbers.digits * set.now.within.numbers.degree }
    requires work { length work.old ≡ work_long set.now }
    requires scratch { length scratch.old ≡ set.now.within.numbers.degree }
    ensures { acc.new ≡ S.run (numbers_of set.now) exponents.now (polys_in K.Kernel.reads set.now (S.count set.now.within * set.now.within.numbers.digits) keys.now) acc.old }
{
    for (i, taken) in exponents.chunks_exact(S::EXPONENTS).enumerate() {
        S::step(kernel, set, acc, taken, keys, i, work, scratch);
    }
}

// A sweep of `count` selectors, step by step, on lists of any words and lengths.
pub(crate) fn sweep<S: Step, K: Kernel>(
    kernel: &K,
    set: &Set,
    count: usize,
    acc: &mut [u32],
    exponents: &[u16],
    keys: &[u32],
    work: &mut [u32],
    scratch: &mut [u32],
) -> Result<(), Fault>
    requires { count ≡ S.count set.now.within }
    ensures answer { result ≡ told (sweep_refused set.now.within.numbers count (length acc.old) (length exponents.now) (length keys.now) (length work.old) (length scratch.old)) }
    ensures acc { acc.new ≡ after result (S.run set.now.within.numbers exponents.now (read_rows (K.Kernel.reads set.now.ring) set.now.within.numbers.degree (count * set.now.within.numbers.digits) keys.now) (poly_of set.now.ring acc.old)) acc.old }
    ensures work { work.new ≡ replicate (length work.old) 0 }
    ensures scratch { scratch.new ≡ replicate (length scratch.old) 0 }
{
    let room = Wiped { words: work };
    let spare = Wiped { words: scratch };
    let lengths = Lengths {
        acc: acc.len(),
        exponents: exponents.len(),
        keys: keys.len(),
        work: room.words.len(),
        scratch: spare.words.len(),
    };
    check_sweep(set, count, &lengths)?;
    remainders::reduce(set.ring(), acc);
    steps::<S, K>(kernel, set, acc, exponents, keys, room.words, spare.words);
    Ok(())
}
