ghost use Rattle.std.specs.Prelude.{◌≡◌, ◌*◌, ◌<◌, length, replicate};
ghost use Rattle.faults.specs.Least.{told};
ghost use Rattle.gate.specs.Lengths.{start_length, selectors_length, rows_length, gate_work};
ghost use Rattle.registers.specs.Marks.{state_of};
ghost use Rattle.registers.specs.Registers.{numbers_of, wide, row_at, put_row};
ghost use Rattle.registers.specs.Steps.{lists_of, gates_by, refuse_gate, next_gate};
ghost use Rattle.registers.specs.Wrong.{LeastGate};

use crate::checks::check_gate;
use crate::file::File;
use crate::lists::Lists;
use engine::engine::Engine;
use faults::fault::Fault;
use gate::in_place::gate_at;
use gate::keys::Keys;
use gate::letter::Letter;
use kernels::kernel::Kernel;
use set::checked::Set;
use sweeps::sweep::Sweep;
use words::guard::Wiped;

// Writes the gate of the registers x and y to z, of so many.
// Kept: six parameters one by one, as gate_at asks for them, and clauses over a struct of `&mut` would be longer.
fn gate_row<K: Kernel, S: Sweep>(
    kernel: &K,
    sweep: &S,
    set: &Set,
    count: u32,
    letter: Letter,
    x: u32,
    y: u32,
    z: u32,
    keys: Keys<'_>,
    regs: &mut [u16],
    small: &mut [u16],
    work: &mut [u32],
    scratch: &mut [u32],
)
    requires start { length keys.start.now ≡ start_length (numbers_of set.now) }
    requires selectors { length keys.selectors.now ≡ selectors_length (numbers_of set.now) (S.Sweep.count set.now.within) }
    requires rows { length keys.rows.now ≡ rows_length (numbers_of set.now) }
    requires whole { length regs.old ≡ count * wide (numbers_of set.now) }
    requires small { length small.old ≡ wide (numbers_of set.now) }
    requires work { length work.old ≡ gate_work (numbers_of set.now) }
    requires scratch { length scratch.old ≡ (numbers_of set.now).degree }
    requires x { x < count }
    requires y { y < count }
    requires z { z < count }
    ensures { regs.new ≡ put_row (numbers_of set.now) z regs.old (gates_by S.Sweep.defined K.Kernel.reads S.Sweep.count set.now keys.entry.start.now keys.entry.selectors.now keys.entry.rows.now letter (row_at (wide (numbers_of set.now)) x regs.old) (row_at (wide (numbers_of set.now)) y regs.old)) }
{
    let _ = gate_at(
        kernel, sweep, set, letter, x, y, z, keys, regs, small, work, scratch,
    );
}

impl File {
    // Writes the gate of x and y to z, and marks z. Any of the three may be the same register.
    // Kept: small, work and scratch one by one, since a contract speaks of what a struct of `&mut` leaves only as `.exit.1.0.now`.
    pub fn gate<K: Kernel + Drop, S: Sweep + Drop>(
        &mut self,
        engine: &Engine<K, S>,
        letter: Letter,
        x: u32,
        y: u32,
        z: u32,
        keys: Keys<'_>,
        regs: &mut [u16],
        small: &mut [u16],
        work: &mut [u32],
        scratch: &mut [u32],
    ) -> Result<(), Fault>
        ensures answer { result ≡ told (refuse_gate (numbers_of engine.now.set) (S.Sweep.count engine.now.set.within) (lists_of keys.entry.start.now keys.entry.selectors.now keys.entry.rows.now small.old work.old scratch.old) (state_of self.old regs.old) x y z) }
        ensures state { state_of self.new regs.new ≡ next_gate (gates_by S.Sweep.defined K.Kernel.reads S.Sweep.count engine.now.set keys.entry.start.now keys.entry.selectors.now keys.entry.rows.now) (numbers_of engine.now.set) (S.Sweep.count engine.now.set.within) (lists_of keys.entry.start.now keys.entry.selectors.now keys.entry.rows.now small.old work.old scratch.old) (state_of self.old regs.old) letter x y z }
        ensures small { small.new ≡ replicate (length small.old) 0 }
        ensures work { work.new ≡ replicate (length work.old) 0 }
        ensures scratch { scratch.new ≡ replicate (length scratch.old) 0 }
        ensures least { LeastGate (numbers_of engine.now.set) (S.Sweep.count engine.now.set.within) (lists_of keys.entry.start.now keys.entry.selectors.now keys.entry.rows.now small.old work.old scratch.old) (state_of self.old regs.old) x y z }
    {
        let little = Wiped { words: small };
        let room = Wiped { words: work };
        let spare = Wiped { words: scratch };
        let lists = Lists {
            start: keys.start.len(),
            selectors: keys.selectors.len(),
            rows: keys.rows.len(),
            small: little.words.len(),
            work: room.words.len(),
            scratch: spare.words.len(),
        };
        let set = engine.set();
        check_gate::<S>(set, self, lists, x, y, z, regs)?;
        gate_row(
            engine.kernel(),
            engine.sweep(),
            set,
            self.registers(),
            letter,
            x,
            y,
            z,
            keys,
            regs,
            little.words,
            room.words,
            spare.words,
        );
        self.mark(z, true);
        Ok(())
    }
}
