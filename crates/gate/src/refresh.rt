ghost use Rattle.std.specs.Prelude.{◌≡◌, ℕ, ◌+◌, ◌*◌, List, length};
ghost use Rattle.gate.specs.declared.letter.Letter.{Letter};
ghost use Rattle.gate.specs.Keys.{start_of, selectors_of};
ghost use Rattle.gate.specs.Lengths.{words_of, sample_of, start_length, selectors_length, rows_length, sweep_work, gate_work};
ghost use Rattle.gate.specs.Stages.{combined_of};
ghost use Rattle.gate.specs.Gates.{rotated_of, settled_of, gate_of, GateHolds};

use crate::keys::Keys;
use crate::stages::extract::extract_right;
use crate::stages::finish::finish_right;
use crate::stages::narrow::narrow_right;
use crate::stages::start::start_right;
use crate::stages::sweep::sweep_right;
use crate::stages::switch::switch_right;
use crate::stages::{Combined, Swept};
use kernels::kernel::Kernel;
use set::checked::Set;
use sweeps::sweep::Sweep;

// The stages after the first, by a kernel, a sweep and a set, with keys that have their lengths.
#[derive(Drop)]
pub struct Refresher<'a, K: Kernel, S: Sweep> {
    pub kernel: &'a K,
    pub sweep: &'a S,
    pub set: &'a Set,
    pub keys: Keys<'a>,
    ghost start: { length keys.start.now ≡ start_length set.now.within.numbers },
    ghost selectors: { length keys.selectors.now ≡ selectors_length set.now.within.numbers (S.Sweep.count set.now.within) },
    ghost rows: { length keys.rows.now ≡ rows_length set.now.within.numbers },
}

impl<K: Kernel, S: Sweep> Refresher<'_, K, S> {
    // Start and sweep.
    fn rotate(
        &self,
        combined: &mut [u16],
        acc: &mut [u32],
        room: &mut [u32],
        scratch: &mut [u32],
        token: Combined,
    ) -> Swept
        requires combined { length combined.old ≡ words_of self.now.set.now.within.numbers }
        requires acc { length acc.old ≡ self.now.set.now.within.numbers.degree }
        requires room { length room.old ≡ sweep_work self.now.set.now.within.numbers }
        requires scratch { length scratch.old ≡ self.now.set.now.within.numbers.degree }
        ensures { acc.new ≡ rotated_of S.Sweep.defined self.now.set.now.within.numbers (start_of K.Kernel.reads self.now.set.now self.now.keys.start.now) (selectors_of K.Kernel.reads S.Sweep.count self.now.set.now self.now.keys.selectors.now) combined.old }
    {
        let started = start_right(
            self.kernel,
            self.set,
            combined,
            acc,
            self.keys.start,
            room,
            scratch,
            token,
        );
        sweep_right(
            self.kernel,
            self.sweep,
            self.set,
            combined,
            acc,
            self.keys.selectors,
            room,
            scratch,
            started,
        )
    }

    // Combined words are refreshed.
    pub fn refresh(
        &self,
        combined: &mut [u16],
        out: &mut [u16],
        work: &mut [u32],
        scratch: &mut [u32],
        token: Combined,
    )
        requires combined { length combined.old ≡ words_of self.now.set.now.within.numbers }
        requires out { length out.old ≡ words_of self.now.set.now.within.numbers }
        requires work { length work.old ≡ gate_work self.now.set.now.within.numbers }
        requires scratch { length scratch.old ≡ self.now.set.now.within.numbers.degree }
        ensures words { out.new ≡ settled_of self.now.set.now.within.numbers self.now.keys.rows.now (rotated_of S.Sweep.defined self.now.set.now.within.numbers (start_of K.Kernel.reads self.now.set.now self.now.keys.start.now) (selectors_of K.Kernel.reads S.Sweep.count self.now.set.now self.now.keys.selectors.now) combined.old) }
        ensures gate { (l : Letter) (xs ys : List ℕ) → combined.old ≡ combined_of self.now.set.now.within.numbers l xs ys
            → (out.new ≡ gate_of S.Sweep.defined self.now.set.now.within.numbers l (start_of K.Kernel.reads self.now.set.now self.now.keys.start.now) (selectors_of K.Kernel.reads S.Sweep.count self.now.set.now self.now.keys.selectors.now) self.now.keys.rows.now xs ys)
            × GateHolds S.Sweep.noise S.Sweep.count S.Sweep.message self.now.set.now l (start_of K.Kernel.reads self.now.set.now self.now.keys.start.now) (selectors_of K.Kernel.reads S.Sweep.count self.now.set.now self.now.keys.selectors.now) self.now.keys.rows.now xs ys out.new }
    {
        let (room, rest) = work.split_at_mut(self.set.sweep_words());
        let (acc, others) = rest.split_at_mut(self.set.degree());
        let swept = self.rotate(combined, acc, room, scratch, token);
        settle(self.set, acc, others, self.keys.rows, out, swept);
    }
}

// Extract, round to M, switch, round to q.
fn settle_in(
    set: &Set,
    acc: &mut [u32],
    sample: &mut [u32],
    narrowed: &mut [u32],
    switched: &mut [u32],
    rows: &[u32],
    out: &mut [u16],
    token: Swept,
)
    requires acc { length acc.old ≡ set.now.within.numbers.degree }
    requires sample { length sample.old ≡ sample_of set.now.within.numbers }
    requires narrowed { length narrowed.old ≡ sample_of set.now.within.numbers }
    requires switched { length switched.old ≡ words_of set.now.within.numbers }
    requires rows { length rows.now ≡ rows_length set.now.within.numbers }
    requires out { length out.old ≡ words_of set.now.within.numbers }
    ensures { out.new ≡ settled_of set.now.within.numbers rows.now acc.old }
{
    let extracted = extract_right(set, acc, sample, token);
    let rounded = narrow_right(set, sample, narrowed, extracted);
    let moved = switch_right(set, narrowed, switched, rows, rounded);
    finish_right(set, switched, out, moved);
}

fn settle(set: &Set, acc: &mut [u32], rest: &mut [u32], rows: &[u32], out: &mut [u16], token: Swept)
    requires acc { length acc.old ≡ set.now.within.numbers.degree }
    requires rest { length rest.old ≡ sample_of set.now.within.numbers + sample_of set.now.within.numbers + words_of set.now.within.numbers }
    requires rows { length rows.now ≡ rows_length set.now.within.numbers }
    requires out { length out.old ≡ words_of set.now.within.numbers }
    ensures { out.new ≡ settled_of set.now.within.numbers rows.now acc.old }
{
    let size = set.sample_words();
    let (sample, others) = rest.split_at_mut(size);
    let (narrowed, switched) = others.split_at_mut(size);
    settle_in(set, acc, sample, narrowed, switched, rows, out, token);
}
