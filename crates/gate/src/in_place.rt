ghost use Rattle.std.specs.Prelude.{◌≡◌, ℕ, ◌+◌, ◌*◌, ◌/◌, ◌≤◌, length, take, drop, replicate, OnOk};
ghost use Rattle.faults.specs.Least.{told};
ghost use Rattle.kernels.specs.Lengths.{after};
ghost use Rattle.gate.specs.Keys.{start_of, selectors_of};
ghost use Rattle.gate.specs.Lengths.{words_of};
ghost use Rattle.gate.specs.Stages.{combined_of, inverted_of};
ghost use Rattle.gate.specs.Gates.{gate_of, gate_at_refused, GateHolds, invert_at_refused, InvertHolds, register_at, with_register};

use crate::keys::Keys;
use crate::lengths::{check_gate_at, check_invert_at};
use crate::letter::Letter;
use crate::parts::part_of;
use crate::refresh::Refresher;
use crate::stages::Combined;
use crate::stages::combine::combine_right;
use crate::vectors::invert_words;
use faults::fault::Fault;
use kernels::kernel::Kernel;
use set::checked::Set;
use sweeps::sweep::Sweep;
use words::guard::Wiped;

// Registers x and y combined.
fn combine_at(
    set: &Set,
    letter: Letter,
    x: usize,
    y: usize,
    registers: &[u16],
    out: &mut [u16],
) -> Combined
    requires x { x * words_of set.now.within.numbers + words_of set.now.within.numbers ≤ length registers.now }
    requires y { y * words_of set.now.within.numbers + words_of set.now.within.numbers ≤ length registers.now }
    requires out { length out.old ≡ words_of set.now.within.numbers }
    ensures { out.new ≡ combined_of set.now.within.numbers letter (register_at set.now.within.numbers registers.now x) (register_at set.now.within.numbers registers.now y) }
{
    let words = set.cipher_words();
    combine_right(
        set,
        letter,
        part_of(registers, x, words),
        part_of(registers, y, words),
        out,
    )
}

// The gate of registers x and y, written to register z. Any of the three may be the same.
pub fn gate_at<K: Kernel, S: Sweep>(
    kernel: &K,
    sweep: &S,
    set: &Set,
    letter: Letter,
    x: u32,
    y: u32,
    z: u32,
    keys: Keys<'_>,
    registers: &mut [u16],
    small: &mut [u16],
    work: &mut [u32],
    scratch: &mut [u32],
) -> Result<(), Fault>
    ensures answer { result ≡ told (gate_at_refused set.now.within.numbers (S.Sweep.count set.now.within) x y z (length keys.entry.start.now) (length keys.entry.selectors.now) (length keys.entry.rows.now) (length registers.old) (length small.old) (length work.old) (length scratch.old)) }
    ensures words { registers.new ≡ after result (with_register set.now.within.numbers registers.old z (gate_of S.Sweep.defined set.now.within.numbers letter (start_of K.Kernel.reads set.now keys.entry.start.now) (selectors_of K.Kernel.reads S.Sweep.count set.now keys.entry.selectors.now) keys.entry.rows.now (register_at set.now.within.numbers registers.old x) (register_at set.now.within.numbers registers.old y))) registers.old }
    ensures holds { OnOk result (GateHolds S.Sweep.noise S.Sweep.count S.Sweep.message set.now letter (start_of K.Kernel.reads set.now keys.entry.start.now) (selectors_of K.Kernel.reads S.Sweep.count set.now keys.entry.selectors.now) keys.entry.rows.now (register_at set.now.within.numbers registers.old x) (register_at set.now.within.numbers registers.old y) (register_at set.now.within.numbers registers.new z)) }
    ensures small { small.new ≡ replicate (length small.old) 0 }
    ensures work { work.new ≡ replicate (length work.old) 0 }
    ensures scratch { scratch.new ≡ replicate (length scratch.old) 0 }
{
    let little = Wiped { words: small };
    let room = Wiped { words: work };
    let spare = Wiped { words: scratch };
    check_gate_at(
        set,
        S::selectors(&set.within),
        x,
        y,
        z,
        keys,
        registers,
        little.words,
        room.words,
        spare.words,
    )?;
    let combined = combine_at(set, letter, x as usize, y as usize, registers, little.words);
    let refresher = Refresher {
        kernel,
        sweep,
        set,
        keys,
    };
    let words = set.cipher_words();
    let at = z as usize * words;
    refresher.refresh(
        little.words,
        &mut registers[at..at + words],
        room.words,
        spare.words,
        combined,
    );
    Ok(())
}

fn invert_at_right(set: &Set, x: usize, z: usize, registers: &mut [u16])
    requires x { x * words_of set.now.within.numbers + words_of set.now.within.numbers ≤ length registers.old }
    requires z { z * words_of set.now.within.numbers + words_of set.now.within.numbers ≤ length registers.old }
    ensures words { registers.new ≡ with_register set.now.within.numbers registers.old z (inverted_of set.now.within.numbers (register_at set.now.within.numbers registers.old x)) }
    ensures holds { InvertHolds set.now.within (register_at set.now.within.numbers registers.old x) (register_at set.now.within.numbers registers.new z) }
{
    let words = set.cipher_words();
    let from = x * words;
    let to = z * words;
    registers.copy_within(from..from + words, to);
    invert_words(set.dimension(), set.least(), &mut registers[to..to + words]);
}

// The opposite bit of register x, written to register z, which may be the same.
pub fn invert_at(set: &Set, x: u32, z: u32, registers: &mut [u16]) -> Result<(), Fault>
    ensures answer { result ≡ told (invert_at_refused set.now.within.numbers x z (length registers.old)) }
    ensures words { registers.new ≡ after result (with_register set.now.within.numbers registers.old z (inverted_of set.now.within.numbers (register_at set.now.within.numbers registers.old x))) registers.old }
    ensures holds { OnOk result (InvertHolds set.now.within (register_at set.now.within.numbers registers.old x) (register_at set.now.within.numbers registers.new z)) }
{
    check_invert_at(set, x, z, registers)?;
    invert_at_right(set, x as usize, z as usize, registers);
    Ok(())
}
