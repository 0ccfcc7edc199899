ghost use Rattle.std.specs.Prelude.{◌≡◌, ◌+◌, ◌*◌, length, replicate};
ghost use Rattle.registers.specs.Marks.{State, state_of};
ghost use Rattle.registers.specs.Registers.{numbers_of};
ghost use Rattle.registers.specs.Steps.{gates_by, either, done_op};
ghost use Rattle.calls.specs.Orders.{ending, parsed, OrdersAreCalls};
ghost use Rattle.calls.specs.Calls.{handed_lists, refuse_by, refuse_orders, orders_of, orders_end};

use crate::act::act;
use crate::answer::Ran;
use crate::checks::check_orders;
use crate::order::order_of;
use engine::engine::Engine;
use faults::fault::Fault;
use gate::keys::Keys;
use kernels::kernel::Kernel;
use registers::file::File;
use registers::lists::Lists;
use sweeps::sweep::Sweep;
use words::guard::Wiped;

// Orders one after the other, up to the first that is refused.
fn follow<K: Kernel + Drop, S: Sweep + Drop>(
    engine: &Engine<K, S>,
    file: &mut File,
    orders: &[u8],
    keys: Keys<'_>,
    regs: &mut [u16],
    small: &mut [u16],
    work: &mut [u32],
    scratch: &mut [u32],
) -> Ran
    ensures { ending (state_of file.new regs.new) result.orders result.stop ≡ orders_of (gates_by S.Sweep.defined K.Kernel.reads S.Sweep.count engine.now.set keys.entry.start.now keys.entry.selectors.now keys.entry.rows.now) (numbers_of engine.now.set) (S.Sweep.count engine.now.set.within) (handed_lists keys.entry.start.now keys.entry.selectors.now keys.entry.rows.now small.old work.old scratch.old) (state_of file.old regs.old) orders.now }
{
    for (i, order) in orders.chunks_exact(4).enumerate() {
        let Some(op) = order_of(order[0], order[1], order[2], order[3]) else {
            return Ran {
                orders: i,
                stop: Some(Fault::Order { order: i as u64 }),
            };
        };
        // Kept: no `?`, since a refusal becomes a Ran, which tells how many orders ran.
        if let Err(fault) = act(engine, file, op, keys, regs, small, work, scratch) {
            return Ran {
                orders: i,
                stop: Some(fault),
            };
        }
    }
    let ran = orders.len() / 4;
    if orders.len() % 4 != 0 {
        return Ran {
            orders: ran,
            stop: Some(Fault::Order { order: ran as u64 }),
        };
    }
    Ran {
        orders: ran,
        stop: None,
    }
}

// Runs a list of orders, of four bytes each, up to its end or the first that is refused, and tells how many ran.
pub fn run_orders<K: Kernel + Drop, S: Sweep + Drop>(
    engine: &Engine<K, S>,
    file: &mut File,
    orders: &[u8],
    keys: Keys<'_>,
    regs: &mut [u16],
    small: &mut [u16],
    work: &mut [u32],
    scratch: &mut [u32],
) -> Ran
    ensures end { ending (state_of file.new regs.new) result.orders result.stop ≡ orders_end (gates_by S.Sweep.defined K.Kernel.reads S.Sweep.count engine.now.set keys.entry.start.now keys.entry.selectors.now keys.entry.rows.now) (numbers_of engine.now.set) (S.Sweep.count engine.now.set.within) (handed_lists keys.entry.start.now keys.entry.selectors.now keys.entry.rows.now small.old work.old scratch.old) (state_of file.old regs.old) orders.now }
    ensures calls { OrdersAreCalls State (refuse_by (numbers_of engine.now.set) (S.Sweep.count engine.now.set.within) (handed_lists keys.entry.start.now keys.entry.selectors.now keys.entry.rows.now small.old work.old scratch.old)) (done_op (gates_by S.Sweep.defined K.Kernel.reads S.Sweep.count engine.now.set keys.entry.start.now keys.entry.selectors.now keys.entry.rows.now) (numbers_of engine.now.set)) (state_of file.old regs.old) (parsed orders.now) (orders_of (gates_by S.Sweep.defined K.Kernel.reads S.Sweep.count engine.now.set keys.entry.start.now keys.entry.selectors.now keys.entry.rows.now) (numbers_of engine.now.set) (S.Sweep.count engine.now.set.within) (handed_lists keys.entry.start.now keys.entry.selectors.now keys.entry.rows.now small.old work.old scratch.old) (state_of file.old regs.old) orders.now) }
    ensures small { small.new ≡ replicate (length small.old) 0 }
    ensures work { work.new ≡ replicate (length work.old) 0 }
    ensures scratch { scratch.new ≡ replicate (length scratch.old) 0 }
{
    let little = Wiped { words: small };
    let room = Wiped { words: work };
    let spare = Wiped { words: scratch };
    let lists = Lists {
        start: keys.start.len(),
        selectors: keys.selectors.len(),
        rows: keys.rows.len(),
        small: little.words.len(),
        work: room.words.len(),
        scratch: spare.words.len(),
    };
    // Kept: no `?`, since a refusal becomes a Ran, which tells that none ran.
    if let Err(fault) = check_orders::<S>(engine.set(), file, lists, regs) {
        return Ran {
            orders: 0,
            stop: Some(fault),
        };
    }
    follow(
        engine,
        file,
        orders,
        keys,
        regs,
        little.words,
        room.words,
        spare.words,
    )
}
