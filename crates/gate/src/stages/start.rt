ghost use Rattle.std.specs.Prelude.{◌≡◌, ℕ, ◌+◌, ◌*◌, ◌%◌, ◌<◌, length, set as set_at, replicate};
ghost use Rattle.algebra.specs.Gates.{beginning};
ghost use Rattle.kernels.specs.Polynomials.{reduced};
ghost use Rattle.sweeps.specs.External.{taken_words};
ghost use Rattle.sweeps.specs.Meaning.{turns};
ghost use Rattle.gate.specs.Keys.{start_of};
ghost use Rattle.gate.specs.Lengths.{staged, wrote, words_of, start_length, sweep_work, start_refused};
ghost use Rattle.gate.specs.Stages.{started_of};

use super::{Combined, Declined, Started};
use crate::beginning::begin_words;
use crate::lengths::check_start;
use kernels::kernel::Kernel;
use set::checked::Set;
use sweeps::external::take;
use sweeps::turn::turn_of;
use words::guard::Wiped;

// Y^b times the test polynomial.
fn begin(set: &Set, word: u16, acc: &mut [u32])
    requires { length acc.old ≡ set.now.within.numbers.degree }
    ensures { acc.new ≡ beginning set.now.within.numbers.degree set.now.within.numbers.modulus (turns set.now.within.numbers word) }
{
    begin_words(set.wide(), turn_of(set, word as u32), acc);
}

// Taken by the start key.
fn take_start<K: Kernel>(
    kernel: &K,
    set: &Set,
    acc: &mut [u32],
    key: &[u32],
    work: &mut [u32],
    scratch: &mut [u32],
)
    requires acc { length acc.old ≡ set.now.within.numbers.degree }
    requires key { length key.now ≡ start_length set.now.within.numbers }
    requires work { length work.old ≡ sweep_work set.now.within.numbers }
    requires scratch { length scratch.old ≡ set.now.within.numbers.degree }
    ensures acc { acc.new ≡ taken_words set.now.within.numbers (start_of K.Kernel.reads set.now key.now) (reduced set.now.within.numbers.degree set.now.within.numbers.modulus acc.old) }
    ensures work { work.new ≡ replicate (length work.old) 0 }
    ensures scratch { scratch.new ≡ replicate (length scratch.old) 0 }
{
    let _ = take(kernel, set, acc, key, work, scratch);
}

// The same, of lists that have their lengths.
pub(crate) fn start_right<K: Kernel>(
    kernel: &K,
    set: &Set,
    combined: &mut [u16],
    acc: &mut [u32],
    key: &[u32],
    work: &mut [u32],
    scratch: &mut [u32],
    token: Combined,
) -> Started
    requires combined { length combined.old ≡ words_of set.now.within.numbers }
    requires acc { length acc.old ≡ set.now.within.numbers.degree }
    requires key { length key.now ≡ start_length set.now.within.numbers }
    requires work { length work.old ≡ sweep_work set.now.within.numbers }
    requires scratch { length scratch.old ≡ set.now.within.numbers.degree }
    ensures token { result.words ≡ set.now.within.numbers.degree }
    ensures combined { combined.new ≡ set_at combined.old set.now.within.numbers.dimension 0 }
    ensures acc { acc.new ≡ started_of set.now.within.numbers (start_of K.Kernel.reads set.now key.now) combined.old }
    ensures work { work.new ≡ replicate (length work.old) 0 }
    ensures scratch { scratch.new ≡ replicate (length scratch.old) 0 }
{
    let Combined { words: _ } = token;
    let last = set.dimension();
    begin(set, combined[last], acc);
    combined[last] = 0;
    take_start(kernel, set, acc, key, work, scratch);
    Started { words: acc.len() }
}

// The second stage: Y^b times the test polynomial is taken by the start key. The word b is used up.
pub fn start<K: Kernel>(
    kernel: &K,
    set: &Set,
    combined: &mut [u16],
    acc: &mut [u32],
    key: &[u32],
    work: &mut [u32],
    scratch: &mut [u32],
    token: Combined,
) -> Result<Started, Declined<Combined>>
    ensures answer { result ≡ staged (start_refused set.now.within.numbers (length combined.old) (length acc.old) (length key.now) (length work.old) (length scratch.old)) (record { words = set.now.within.numbers.degree }) token }
    ensures combined { combined.new ≡ wrote result (set_at combined.old set.now.within.numbers.dimension 0) combined.old }
    ensures acc { acc.new ≡ wrote result (started_of set.now.within.numbers (start_of K.Kernel.reads set.now key.now) combined.old) acc.old }
    ensures work { work.new ≡ replicate (length work.old) 0 }
    ensures scratch { scratch.new ≡ replicate (length scratch.old) 0 }
{
    let room = Wiped { words: work };
    let spare = Wiped { words: scratch };
    let token = Declined::unless(
        check_start(set, combined, acc, key, room.words, spare.words),
        token,
    )?;
    Ok(start_right(
        kernel,
        set,
        combined,
        acc,
        key,
        room.words,
        spare.words,
        token,
    ))
}
