ghost use Rattle.std.specs.Prelude.{◌≡◌, ℕ, ◌+◌, ◌*◌, ◌^◌, ◌<◌, ◌≤◌, max, length, IsOk};
ghost use Rattle.faults.specs.Least.{refusal};
ghost use Rattle.gate.specs.Gates.{gate_refused, GateFits, reach_of, gate_at_refused, GateAtFits, invert_at_refused, InvertAtFits};
ghost use Rattle.gate.specs.Lengths.{words_of, sample_of, start_length, selectors_length, rows_length, sweep_work, gate_work, first_wrong, AllRight, start_refused, sweep_refused, StartFits, SweepFits};

use crate::keys::Keys;
use crate::sizes::gate_words;
use faults::fault::{Fault, Layer};
use faults::lengths;
use set::checked::Set;

// Refuses the first list that has not its right length; each list is told by its length and the right one.
pub fn check_lengths(lists: &[(usize, usize)]) -> Result<(), Fault>
    requires { length lists.now ≤ 16 }
    ensures answer { refusal result ≡ first_wrong 0 lists.now }
    ensures fits { IsOk result → AllRight lists.now }
{
    lengths::check_lengths(Layer::Gate, lists)
}

// The lists of a start.
pub fn check_start(
    set: &Set,
    combined: &[u16],
    acc: &[u32],
    key: &[u32],
    work: &[u32],
    scratch: &[u32],
) -> Result<(), Fault>
    ensures answer { refusal result ≡ start_refused set.now.within.numbers (length combined.now) (length acc.now) (length key.now) (length work.now) (length scratch.now) }
    ensures fits { IsOk result → StartFits set.now.within.numbers (length combined.now) (length acc.now) (length key.now) (length work.now) (length scratch.now) }
{
    let degree = set.degree();
    check_lengths(&[
        (combined.len(), set.cipher_words()),
        (acc.len(), degree),
        (key.len(), set.key_words()),
        (work.len(), set.sweep_words()),
        (scratch.len(), degree),
    ])
}

// The lists of a sweep by so many selectors.
pub fn check_sweep(
    set: &Set,
    count: usize,
    combined: &[u16],
    acc: &[u32],
    keys: &[u32],
    work: &[u32],
    scratch: &[u32],
) -> Result<(), Fault>
    requires { count ≤ 2 ^ 14 }
    ensures answer { refusal result ≡ sweep_refused set.now.within.numbers count (length combined.now) (length acc.now) (length keys.now) (length work.now) (length scratch.now) }
    ensures fits { IsOk result → SweepFits set.now.within.numbers count (length combined.now) (length acc.now) (length keys.now) (length work.now) (length scratch.now) }
{
    let degree = set.degree();
    check_lengths(&[
        (combined.len(), set.cipher_words()),
        (acc.len(), degree),
        (keys.len(), set.selector_words(count)),
        (work.len(), set.sweep_words()),
        (scratch.len(), degree),
    ])
}

// The lists of a gate whose sweep takes so many selectors.
pub fn check_gate(
    set: &Set,
    count: usize,
    x: &[u16],
    y: &[u16],
    out: &[u16],
    keys: Keys<'_>,
    small: &[u16],
    work: &[u32],
    scratch: &[u32],
) -> Result<(), Fault>
    requires { count ≤ 2 ^ 14 }
    ensures answer { refusal result ≡ gate_refused set.now.within.numbers count (length x.now) (length y.now) (length out.now) (length keys.entry.start.now) (length keys.entry.selectors.now) (length keys.entry.rows.now) (length small.now) (length work.now) (length scratch.now) }
    ensures fits { IsOk result → GateFits set.now.within.numbers count (length x.now) (length y.now) (length out.now) (length keys.entry.start.now) (length keys.entry.selectors.now) (length keys.entry.rows.now) (length small.now) (length work.now) (length scratch.now) }
{
    let words = set.cipher_words();
    check_lengths(&[
        (x.len(), words),
        (y.len(), words),
        (out.len(), words),
        (keys.start.len(), set.key_words()),
        (keys.selectors.len(), set.selector_words(count)),
        (keys.rows.len(), set.row_words()),
        (small.len(), words),
        (work.len(), gate_words(set)),
        (scratch.len(), set.degree()),
    ])
}

// The words that registers up to the highest of three take.
fn reach(set: &Set, x: u32, y: u32, z: u32) -> usize
    ensures { result ≡ reach_of set.now.within.numbers x y z }
{
    let top = x.max(y).max(z) as usize;
    (top + 1) * set.cipher_words()
}

// The lists of a gate on the registers x, y and z.
pub fn check_gate_at(
    set: &Set,
    count: usize,
    x: u32,
    y: u32,
    z: u32,
    keys: Keys<'_>,
    registers: &[u16],
    small: &[u16],
    work: &[u32],
    scratch: &[u32],
) -> Result<(), Fault>
    requires { count ≤ 2 ^ 14 }
    ensures answer { refusal result ≡ gate_at_refused set.now.within.numbers count x y z (length keys.entry.start.now) (length keys.entry.selectors.now) (length keys.entry.rows.now) (length registers.now) (length small.now) (length work.now) (length scratch.now) }
    ensures fits { IsOk result → GateAtFits set.now.within.numbers count x y z (length keys.entry.start.now) (length keys.entry.selectors.now) (length keys.entry.rows.now) (length registers.now) (length small.now) (length work.now) (length scratch.now) }
{
    let held = registers.len();
    check_lengths(&[
        (keys.start.len(), set.key_words()),
        (keys.selectors.len(), set.selector_words(count)),
        (keys.rows.len(), set.row_words()),
        (held, held.max(reach(set, x, y, z))),
        (small.len(), set.cipher_words()),
        (work.len(), gate_words(set)),
        (scratch.len(), set.degree()),
    ])
}

// The registers x and z, within their memory.
pub fn check_invert_at(set: &Set, x: u32, z: u32, registers: &[u16]) -> Result<(), Fault>
    ensures answer { refusal result ≡ invert_at_refused set.now.within.numbers x z (length registers.now) }
    ensures fits { IsOk result → InvertAtFits set.now.within.numbers x z (length registers.now) }
{
    let held = registers.len();
    check_lengths(&[(held, held.max(reach(set, x, x, z)))])
}
