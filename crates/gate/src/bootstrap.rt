ghost use Rattle.std.specs.Prelude.{◌≡◌, ℕ, ◌+◌, ◌*◌, length, replicate, OnOk};
ghost use Rattle.faults.specs.Least.{told};
ghost use Rattle.kernels.specs.Lengths.{after};
ghost use Rattle.gate.specs.Keys.{start_of, selectors_of};
ghost use Rattle.gate.specs.Gates.{gate_of, gate_refused, GateHolds};

use crate::keys::Keys;
use crate::lengths::check_gate;
use crate::letter::Letter;
use crate::refresh::Refresher;
use crate::stages::combine::combine_right;
use faults::fault::Fault;
use kernels::kernel::Kernel;
use set::checked::Set;
use sweeps::sweep::Sweep;
use words::guard::Wiped;

// The gate of two ciphertexts. Their words count as remainders, and the result has n + 1 words below q.
// Kept: work memory is three parameters, since a contract speaks of what a struct of `&mut` leaves only as `.exit.1.0.now`.
pub fn gate<K: Kernel, S: Sweep>(
    kernel: &K,
    sweep: &S,
    set: &Set,
    letter: Letter,
    x: &[u16],
    y: &[u16],
    out: &mut [u16],
    keys: Keys<'_>,
    small: &mut [u16],
    work: &mut [u32],
    scratch: &mut [u32],
) -> Result<(), Fault>
    ensures answer { result ≡ told (gate_refused set.now.within.numbers (S.Sweep.count set.now.within) (length x.now) (length y.now) (length out.old) (length keys.entry.start.now) (length keys.entry.selectors.now) (length keys.entry.rows.now) (length small.old) (length work.old) (length scratch.old)) }
    ensures words { out.new ≡ after result (gate_of S.Sweep.defined set.now.within.numbers letter (start_of K.Kernel.reads set.now keys.entry.start.now) (selectors_of K.Kernel.reads S.Sweep.count set.now keys.entry.selectors.now) keys.entry.rows.now x.now y.now) out.old }
    ensures holds { OnOk result (GateHolds S.Sweep.noise S.Sweep.count S.Sweep.message set.now letter (start_of K.Kernel.reads set.now keys.entry.start.now) (selectors_of K.Kernel.reads S.Sweep.count set.now keys.entry.selectors.now) keys.entry.rows.now x.now y.now out.new) }
    ensures small { small.new ≡ replicate (length small.old) 0 }
    ensures work { work.new ≡ replicate (length work.old) 0 }
    ensures scratch { scratch.new ≡ replicate (length scratch.old) 0 }
{
    let little = Wiped { words: small };
    let room = Wiped { words: work };
    let spare = Wiped { words: scratch };
    check_gate(
        set,
        S::selectors(&set.within),
        x,
        y,
        out,
        keys,
        little.words,
        room.words,
        spare.words,
    )?;
    let combined = combine_right(set, letter, x, y, little.words);
    let refresher = Refresher {
        kernel,
        sweep,
        set,
        keys,
    };
    refresher.refresh(little.words, out, room.words, spare.words, combined);
    Ok(())
}
