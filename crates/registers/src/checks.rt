ghost use Rattle.std.specs.Prelude.{◌≡◌, ◌≤◌, false, not, [], filter, length, min, nat_le, slice_index_or};
ghost use Rattle.std.specs.List.{reduce};
ghost use Rattle.faults.specs.Least.{told};
ghost use Rattle.registers.specs.Marks.{filled, state_of};
ghost use Rattle.registers.specs.Registers.{numbers_of, first_high};
ghost use Rattle.registers.specs.Steps.{outsides, vacants, bad_length, bad_memory, bad_registers, refuse_new, refuse_place, refuse_read, refuse_op, refuse_gate, gate_lists, fault_at};
ghost use Rattle.registers.specs.Wrong.{LeastNew, LeastPlace, LeastRead, LeastOp, LeastGate};

use crate::file::File;
use crate::lengths::{check_count, check_keys, check_memory, check_work};
use crate::lists::Lists;
use crate::op::Op;
use crate::rows::first_high;
use crate::sizes::{memory_of, small};
use faults::fault::{Fault, Layer};
use faults::lengths::check_length;
use set::checked::Set;
use sweeps::sweep::Sweep;

// The smallest of these registers that is not below R.
fn beyond(file: &File, names: &[u32]) -> Option<u32>
    ensures { result ≡ reduce min (filter (λ x. nat_le file.now.count x) names.now) }
{
    names
        .iter()
        .copied()
        .filter(|x| file.registers() <= *x)
        .min()
}

// The smallest of these registers that is empty.
fn empty(file: &File, uses: &[u32]) -> Option<u32>
    ensures { result ≡ reduce min (filter (λ x. not (slice_index_or (filled file.now) x false)) uses.now) }
{
    uses.iter().copied().filter(|x| !file.is_filled(*x)).min()
}

// Register memory has its length, as the list of this number.
fn check_regs(list: u32, set: &Set, file: &File, regs: &[u16]) -> Result<(), Fault>
    ensures { result ≡ told (bad_memory list (numbers_of set.now) (state_of file.now regs.now)) }
{
    check_memory(set, Layer::File, list, file.registers(), regs.len())
}

// The registers that a call names are below R.
#[tactic(auto, using(crate::proofs::Picks::outsides_filtered))]
fn check_named(file: &File, names: &[u32]) -> Result<(), Fault>
    ensures { result ≡ told (fault_at Fault.Register (outsides file.now.count names.now)) }
{
    match beyond(file, names) {
        Some(register) => Err(Fault::Register { register }),
        None => Ok(()),
    }
}

// The registers that a call uses are filled.
#[tactic(auto, using(crate::proofs::Picks::vacants_filtered))]
fn check_used(file: &File, uses: &[u32]) -> Result<(), Fault>
    ensures { result ≡ told (fault_at Fault.Empty (vacants (filled file.now) uses.now)) }
{
    match empty(file, uses) {
        Some(register) => Err(Fault::Empty { register }),
        None => Ok(()),
    }
}

// The registers of a call are below R, and those that it uses are filled.
fn check_registers(file: &File, names: &[u32], uses: &[u32]) -> Result<(), Fault>
    ensures { result ≡ told (bad_registers (state_of file.now []) names.now uses.now) }
{
    check_named(file, names)?;
    check_used(file, uses)
}

// Words are below q.
#[tactic(auto, using(crate::proofs::Picks::high_position))]
fn check_words(set: &Set, words: &[u16]) -> Result<(), Fault>
    requires { length words.now ≤ 513 }
    ensures { result ≡ told (fault_at (λ i. Fault.CipherWord i Layer.File) (first_high (numbers_of set.now).small 0 words.now)) }
{
    match first_high(small(set), words) {
        Some(word) => Err(Fault::CipherWord {
            word: word as u32,
            part: Layer::File,
        }),
        None => Ok(()),
    }
}

// The lists of a gate have their lengths.
#[tactic(auto, using(crate::proofs::Refusals::lists_joined))]
fn check_lists<S: Sweep>(set: &Set, file: &File, lists: Lists, regs: &[u16]) -> Result<(), Fault>
    ensures { result ≡ told (gate_lists (numbers_of set.now) (S.Sweep.count set.now.within) lists (state_of file.now regs.now)) }
{
    check_keys::<S>(set, Layer::File, 0, lists)?;
    check_regs(3, set, file, regs)?;
    check_work(set, Layer::File, 4, 0, lists)
}

// Each check below tells the least of the faults that are true of what the call was handed.

// A file can be made.
#[tactic(auto, using(crate::proofs::Refusals::new_least))]
pub fn check_new(set: &Set, count: u32, len: usize) -> Result<(), Fault>
    ensures answer { result ≡ told (refuse_new (numbers_of set.now) count len) }
    ensures least { LeastNew (numbers_of set.now) count len }
{
    check_length(Layer::File, 0, len, memory_of(set, count))?;
    check_count(count)
}

// Words can be placed.
#[tactic(auto, using(crate::proofs::Refusals::place_least))]
pub fn check_place(set: &Set, file: &File, z: u32, words: &[u16], regs: &[u16]) -> Result<(), Fault>
    ensures answer { result ≡ told (refuse_place (numbers_of set.now) (state_of file.now regs.now) z words.now) }
    ensures least { LeastPlace (numbers_of set.now) (state_of file.now regs.now) z words.now }
{
    check_length(Layer::File, 0, words.len(), set.cipher_words())?;
    check_regs(1, set, file, regs)?;
    check_named(file, &[z])?;
    check_words(set, words)
}

// A register can be read.
#[tactic(auto, using(crate::proofs::Refusals::read_least))]
pub fn check_read(set: &Set, file: &File, x: u32, len: usize, regs: &[u16]) -> Result<(), Fault>
    ensures answer { result ≡ told (refuse_read (numbers_of set.now) (state_of file.now regs.now) x len) }
    ensures least { LeastRead (numbers_of set.now) (state_of file.now regs.now) x len }
{
    check_length(Layer::File, 0, len, set.cipher_words())?;
    check_regs(1, set, file, regs)?;
    check_registers(file, &[x], &[x])
}

// An operation on register memory alone can be carried out.
#[tactic(auto, using(crate::proofs::Refusals::op_least))]
pub fn check_op(set: &Set, file: &File, op: Op, regs: &[u16]) -> Result<(), Fault>
    ensures answer { result ≡ told (refuse_op (numbers_of set.now) (state_of file.now regs.now) op) }
    ensures least { LeastOp (numbers_of set.now) (state_of file.now regs.now) op }
{
    check_regs(0, set, file, regs)?;
    match op {
        Op::Gate { letter: _, x, y, z } => check_registers(file, &[x, y, z], &[x, y]),
        Op::Invert { x, z } | Op::Copy { x, z } => check_registers(file, &[x, z], &[x]),
        Op::Clear { z } => check_registers(file, &[z], &[z]),
    }
}

// A gate can be made.
pub fn check_gate<S: Sweep>(
    set: &Set,
    file: &File,
    lists: Lists,
    x: u32,
    y: u32,
    z: u32,
    regs: &[u16],
) -> Result<(), Fault>
    ensures answer { result ≡ told (refuse_gate (numbers_of set.now) (S.Sweep.count set.now.within) lists (state_of file.now regs.now) x y z) }
    ensures least { LeastGate (numbers_of set.now) (S.Sweep.count set.now.within) lists (state_of file.now regs.now) x y z }
{
    check_lists::<S>(set, file, lists, regs)?;
    check_registers(file, &[x, y, z], &[x, y])
}
