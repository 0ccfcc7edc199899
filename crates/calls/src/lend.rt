ghost use Rattle.std.specs.Prelude.{◌≡◌, ◌+◌, min, [], ◌∷◌, ◌++◌, length, replicate};
ghost use Rattle.faults.specs.Least.{told};
ghost use Rattle.gate.specs.Lengths.{start_length, selectors_length, rows_length, gate_work};
ghost use Rattle.registers.specs.Marks.{state_of};
ghost use Rattle.registers.specs.Registers.{numbers_of, wide};
ghost use Rattle.registers.specs.Steps.{gates_by, either, done_op, refuse_read, words_read};
ghost use Rattle.calls.specs.Orders.{ending};
ghost use Rattle.calls.specs.Calls.{lent_lists, refuse_by, orders_end};

use crate::act::act;
use crate::answer::Ran;
use crate::call::Lent;
use crate::orders::run_orders;
use engine::engine::Engine;
use faults::fault::Fault;
use gate::keys::Keys;
use kernels::kernel::Kernel;
use registers::file::File;
use registers::op::Op;
use sweeps::sweep::Sweep;

// An engine, with key memory of the lengths that it takes.
#[derive(Drop)]
pub struct Loaded<'a, K: Kernel + Drop, S: Sweep + Drop> {
    pub engine: &'a Engine<K, S>,
    pub keys: Keys<'a>,
    ghost start: { length keys.start.now ≡ start_length (numbers_of engine.now.set) },
    ghost selectors: { length keys.selectors.now ≡ selectors_length (numbers_of engine.now.set) (S.Sweep.count engine.now.set.within) },
    ghost rows: { length keys.rows.now ≡ rows_length (numbers_of engine.now.set) },
}

// As many as asked for, at most all.
fn at_most(asked: u32, have: usize) -> usize
    ensures { result ≡ min asked have }
{
    (asked as usize).min(have)
}

// Kept: small, work and scratch with a clause each, as fields of Loaded they would need `&mut self` and a promise by each method that engine and keys stay.
impl<K: Kernel + Drop, S: Sweep + Drop> Loaded<'_, K, S> {
    // An operation that is lent so much work memory.
    pub fn act(
        &self,
        file: &mut File,
        op: Op,
        lent: Lent,
        regs: &mut [u16],
        small: &mut [u16],
        work: &mut [u32],
        scratch: &mut [u32],
    ) -> Result<(), Fault>
        requires small { length small.old ≡ wide (numbers_of self.now.engine.now.set) + 1 }
        requires work { length work.old ≡ gate_work (numbers_of self.now.engine.now.set) + 1 }
        requires scratch { length scratch.old ≡ (numbers_of self.now.engine.now.set).degree + 1 }
        ensures answer { result ≡ told (refuse_by (numbers_of self.now.engine.now.set) (S.Sweep.count self.now.engine.now.set.within) (lent_lists (numbers_of self.now.engine.now.set) (S.Sweep.count self.now.engine.now.set.within) lent) (state_of file.old regs.old) op) }
        ensures state { state_of file.new regs.new ≡ either (refuse_by (numbers_of self.now.engine.now.set) (S.Sweep.count self.now.engine.now.set.within) (lent_lists (numbers_of self.now.engine.now.set) (S.Sweep.count self.now.engine.now.set.within) lent) (state_of file.old regs.old) op) (state_of file.old regs.old) (done_op (gates_by S.Sweep.defined K.Kernel.reads S.Sweep.count self.now.engine.now.set self.now.keys.start.now self.now.keys.selectors.now self.now.keys.rows.now) (numbers_of self.now.engine.now.set) (state_of file.old regs.old) op) }
    {
        let a = at_most(lent.small, small.len());
        let b = at_most(lent.work, work.len());
        let c = at_most(lent.scratch, scratch.len());
        act(
            self.engine,
            file,
            op,
            self.keys,
            regs,
            &mut small[0..a],
            &mut work[0..b],
            &mut scratch[0..c],
        )
    }

    // A list of orders that is lent so much work memory.
    pub fn run_orders(
        &self,
        file: &mut File,
        orders: &[u8],
        lent: Lent,
        regs: &mut [u16],
        small: &mut [u16],
        work: &mut [u32],
        scratch: &mut [u32],
    ) -> Ran
        requires small { length small.old ≡ wide (numbers_of self.now.engine.now.set) + 1 }
        requires work { length work.old ≡ gate_work (numbers_of self.now.engine.now.set) + 1 }
        requires scratch { length scratch.old ≡ (numbers_of self.now.engine.now.set).degree + 1 }
        ensures { ending (state_of file.new regs.new) result.orders result.stop ≡ orders_end (gates_by S.Sweep.defined K.Kernel.reads S.Sweep.count self.now.engine.now.set self.now.keys.start.now self.now.keys.selectors.now self.now.keys.rows.now) (numbers_of self.now.engine.now.set) (S.Sweep.count self.now.engine.now.set.within) (lent_lists (numbers_of self.now.engine.now.set) (S.Sweep.count self.now.engine.now.set.within) lent) (state_of file.old regs.old) orders.now }
    {
        let a = at_most(lent.small, small.len());
        let b = at_most(lent.work, work.len());
        let c = at_most(lent.scratch, scratch.len());
        run_orders(
            self.engine,
            file,
            orders,
            self.keys,
            regs,
            &mut small[0..a],
            &mut work[0..b],
            &mut scratch[0..c],
        )
    }
}

// A read into the first words of a slot.
pub fn read_lent<K: Drop, S: Drop>(
    engine: &Engine<K, S>,
    file: &File,
    x: u32,
    len: u32,
    slot: &mut [u16],
    regs: &[u16],
) -> Result<(), Fault>
    requires { length slot.old ≡ wide (numbers_of engine.now.set) + 1 }
    ensures answer { result ≡ told (refuse_read (numbers_of engine.now.set) (state_of file.now regs.now) x (min len (wide (numbers_of engine.now.set) + 1))) }
    ensures slot { slot.new ≡ either (refuse_read (numbers_of engine.now.set) (state_of file.now regs.now) x (min len (wide (numbers_of engine.now.set) + 1))) (replicate (wide (numbers_of engine.now.set) + 1) 0) (words_read (numbers_of engine.now.set) (state_of file.now regs.now) x ++ 0 ∷ []) }
{
    slot.fill(0);
    let n = at_most(len, slot.len());
    file.read(engine.set(), x, &mut slot[0..n], regs)
}
