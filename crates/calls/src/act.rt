ghost use Rattle.std.specs.Prelude.{◌≡◌};
ghost use Rattle.faults.specs.Least.{told};
ghost use Rattle.registers.specs.Marks.{state_of};
ghost use Rattle.registers.specs.Registers.{numbers_of};
ghost use Rattle.registers.specs.Steps.{gates_by, either, done_op};
ghost use Rattle.calls.specs.Calls.{handed_lists, refuse_by};

use engine::engine::Engine;
use faults::fault::Fault;
use gate::keys::Keys;
use kernels::kernel::Kernel;
use registers::file::File;
use registers::op::Op;
use sweeps::sweep::Sweep;

// An operation, as the call that it stands for.
pub fn act<K: Kernel + Drop, S: Sweep + Drop>(
    engine: &Engine<K, S>,
    file: &mut File,
    op: Op,
    keys: Keys<'_>,
    regs: &mut [u16],
    small: &mut [u16],
    work: &mut [u32],
    scratch: &mut [u32],
) -> Result<(), Fault>
    ensures answer { result ≡ told (refuse_by (numbers_of engine.now.set) (S.Sweep.count engine.now.set.within) (handed_lists keys.entry.start.now keys.entry.selectors.now keys.entry.rows.now small.old work.old scratch.old) (state_of file.old regs.old) op) }
    ensures state { state_of file.new regs.new ≡ either (refuse_by (numbers_of engine.now.set) (S.Sweep.count engine.now.set.within) (handed_lists keys.entry.start.now keys.entry.selectors.now keys.entry.rows.now small.old work.old scratch.old) (state_of file.old regs.old) op) (state_of file.old regs.old) (done_op (gates_by S.Sweep.defined K.Kernel.reads S.Sweep.count engine.now.set keys.entry.start.now keys.entry.selectors.now keys.entry.rows.now) (numbers_of engine.now.set) (state_of file.old regs.old) op) }
{
    match op {
        Op::Gate { letter, x, y, z } => {
            file.gate(engine, letter, x, y, z, keys, regs, small, work, scratch)
        }
        Op::Invert { x, z } => file.invert(engine.set(), x, z, regs),
        Op::Copy { x, z } => file.copy(engine.set(), x, z, regs),
        Op::Clear { z } => file.clear(engine.set(), z, regs),
    }
}
