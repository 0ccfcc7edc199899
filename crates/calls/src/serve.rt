ghost use Rattle.std.specs.Prelude.{◌≡◌, ◌+◌, min, [], ◌∷◌, ◌++◌, length, replicate};
ghost use Rattle.gate.specs.Lengths.{gate_work};
ghost use Rattle.registers.specs.Marks.{state_of};
ghost use Rattle.registers.specs.Registers.{numbers_of, wide};
ghost use Rattle.registers.specs.Steps.{gates_by, either, refuse_place, next_place, refuse_read, words_read};
ghost use Rattle.calls.specs.Answers.{verdict};
ghost use Rattle.calls.specs.Calls.{asked, doing, ordering, answer, next, slot as slot_of};

use crate::answer::Answer;
use crate::call::{Call, Lent};
use crate::lend::{Loaded, read_lent};
use engine::engine::Engine;
use kernels::kernel::Kernel;
use registers::file::File;
use registers::op::Op;
use sweeps::sweep::Sweep;

// A placing as a call.
fn place<K: Drop, S: Drop>(
    engine: &Engine<K, S>,
    file: &mut File,
    z: u32,
    words: &[u16],
    regs: &mut [u16],
) -> Answer
    ensures answer { result ≡ verdict (refuse_place (numbers_of engine.now.set) (state_of file.old regs.old) z words.now) }
    ensures state { state_of file.new regs.new ≡ next_place (numbers_of engine.now.set) (state_of file.old regs.old) z words.now }
{
    file.place(engine.set(), z, words, regs).into()
}

// A reading as a call.
fn read<K: Drop, S: Drop>(
    engine: &Engine<K, S>,
    file: &File,
    x: u32,
    len: u32,
    slot: &mut [u16],
    regs: &[u16],
) -> Answer
    requires { length slot.old ≡ wide (numbers_of engine.now.set) + 1 }
    ensures answer { result ≡ verdict (refuse_read (numbers_of engine.now.set) (state_of file.now regs.now) x (min len (wide (numbers_of engine.now.set) + 1))) }
    ensures slot { slot.new ≡ either (refuse_read (numbers_of engine.now.set) (state_of file.now regs.now) x (min len (wide (numbers_of engine.now.set) + 1))) (replicate (wide (numbers_of engine.now.set) + 1) 0) (words_read (numbers_of engine.now.set) (state_of file.now regs.now) x ++ 0 ∷ []) }
{
    read_lent(engine, file, x, len, slot, regs).into()
}

impl<K: Kernel + Drop, S: Sweep + Drop> Loaded<'_, K, S> {
    // An operation as a call.
    fn operate(
        &self,
        file: &mut File,
        op: Op,
        lent: Lent,
        regs: &mut [u16],
        small: &mut [u16],
        work: &mut [u32],
        scratch: &mut [u32],
    ) -> Answer
        requires small { length small.old ≡ wide (numbers_of self.now.engine.now.set) + 1 }
        requires work { length work.old ≡ gate_work (numbers_of self.now.engine.now.set) + 1 }
        requires scratch { length scratch.old ≡ (numbers_of self.now.engine.now.set).degree + 1 }
        ensures answer { result ≡ answer (gates_by S.Sweep.defined K.Kernel.reads S.Sweep.count self.now.engine.now.set self.now.keys.start.now self.now.keys.selectors.now self.now.keys.rows.now) (numbers_of self.now.engine.now.set) (S.Sweep.count self.now.engine.now.set.within) (state_of file.old regs.old) (doing op lent) }
        ensures state { state_of file.new regs.new ≡ next (gates_by S.Sweep.defined K.Kernel.reads S.Sweep.count self.now.engine.now.set self.now.keys.start.now self.now.keys.selectors.now self.now.keys.rows.now) (numbers_of self.now.engine.now.set) (S.Sweep.count self.now.engine.now.set.within) (state_of file.old regs.old) (doing op lent) }
    {
        self.act(file, op, lent, regs, small, work, scratch).into()
    }

    // A list of orders as a call.
    fn order(
        &self,
        file: &mut File,
        orders: &[u8],
        lent: Lent,
        regs: &mut [u16],
        small: &mut [u16],
        work: &mut [u32],
        scratch: &mut [u32],
    ) -> Answer
        requires small { length small.old ≡ wide (numbers_of self.now.engine.now.set) + 1 }
        requires work { length work.old ≡ gate_work (numbers_of self.now.engine.now.set) + 1 }
        requires scratch { length scratch.old ≡ (numbers_of self.now.engine.now.set).degree + 1 }
        ensures answer { result ≡ answer (gates_by S.Sweep.defined K.Kernel.reads S.Sweep.count self.now.engine.now.set self.now.keys.start.now self.now.keys.selectors.now self.now.keys.rows.now) (numbers_of self.now.engine.now.set) (S.Sweep.count self.now.engine.now.set.within) (state_of file.old regs.old) (ordering orders.now lent) }
        ensures state { state_of file.new regs.new ≡ next (gates_by S.Sweep.defined K.Kernel.reads S.Sweep.count self.now.engine.now.set self.now.keys.start.now self.now.keys.selectors.now self.now.keys.rows.now) (numbers_of self.now.engine.now.set) (S.Sweep.count self.now.engine.now.set.within) (state_of file.old regs.old) (ordering orders.now lent) }
    {
        Answer::Ran(self.run_orders(file, orders, lent, regs, small, work, scratch))
    }

    // One call of a run: its answer, what it leaves, and its slot of read words.
    pub fn serve(
        &self,
        file: &mut File,
        call: &Call,
        slot: &mut [u16],
        regs: &mut [u16],
        small: &mut [u16],
        work: &mut [u32],
        scratch: &mut [u32],
    ) -> Answer
        requires slot { length slot.old ≡ wide (numbers_of self.now.engine.now.set) + 1 }
        requires small { length small.old ≡ wide (numbers_of self.now.engine.now.set) + 1 }
        requires work { length work.old ≡ gate_work (numbers_of self.now.engine.now.set) + 1 }
        requires scratch { length scratch.old ≡ (numbers_of self.now.engine.now.set).degree + 1 }
        ensures answer { result ≡ answer (gates_by S.Sweep.defined K.Kernel.reads S.Sweep.count self.now.engine.now.set self.now.keys.start.now self.now.keys.selectors.now self.now.keys.rows.now) (numbers_of self.now.engine.now.set) (S.Sweep.count self.now.engine.now.set.within) (state_of file.old regs.old) (asked call.now) }
        ensures state { state_of file.new regs.new ≡ next (gates_by S.Sweep.defined K.Kernel.reads S.Sweep.count self.now.engine.now.set self.now.keys.start.now self.now.keys.selectors.now self.now.keys.rows.now) (numbers_of self.now.engine.now.set) (S.Sweep.count self.now.engine.now.set.within) (state_of file.old regs.old) (asked call.now) }
        ensures slot { slot.new ≡ slot_of (gates_by S.Sweep.defined K.Kernel.reads S.Sweep.count self.now.engine.now.set self.now.keys.start.now self.now.keys.selectors.now self.now.keys.rows.now) (numbers_of self.now.engine.now.set) (S.Sweep.count self.now.engine.now.set.within) (state_of file.old regs.old) (asked call.now) }
    {
        slot.fill(0);
        let none = Lent {
            small: 0,
            work: 0,
            scratch: 0,
        };
        match call {
            Call::Place { z, words } => place(self.engine, file, *z, words, regs),
            Call::Read { x, len } => read(self.engine, file, *x, *len, slot, regs),
            Call::Gate {
                letter,
                x,
                y,
                z,
                lent,
            } => {
                let gate = Op::Gate {
                    letter: *letter,
                    x: *x,
                    y: *y,
                    z: *z,
                };
                self.operate(file, gate, *lent, regs, small, work, scratch)
            }
            Call::Invert { x, z } => {
                self.operate(
                    file,
                    Op::Invert { x: *x, z: *z },
                    none,
                    regs,
                    small,
                    work,
                    scratch,
                )
            }
            Call::Copy { x, z } => {
                self.operate(
                    file,
                    Op::Copy { x: *x, z: *z },
                    none,
                    regs,
                    small,
                    work,
                    scratch,
                )
            }
            Call::Clear { z } => {
                self.operate(file, Op::Clear { z: *z }, none, regs, small, work, scratch)
            }
            Call::Orders { orders, lent } => {
                self.order(file, orders, *lent, regs, small, work, scratch)
            }
        }
    }
}
