ghost use Rattle.std.specs.Prelude.{◌≡◌, ◌*◌, ◌≤◌, length, replicate};
ghost use Rattle.faults.specs.Least.{told};
ghost use Rattle.kernels.specs.Lengths.{after};
ghost use Rattle.kernels.specs.Polynomials.{InRing, poly_of};
ghost use Rattle.sweeps.specs.External.{Spread, ForDigits, taken_by, taken_words, take_refused};
ghost use Rattle.sweeps.specs.Layout.{numbers_of, key_long, work_long, key_end, polys_in};

use crate::products;
use faults::fault::{Fault, Layer};
use faults::lengths::check_length;
use kernels::kernel::Kernel;
use kernels::remainders;
use set::checked::Set;
use words::guard::Wiped;

// The rows become the forms of the digits of an accumulator. `rest` is used up.
pub(crate) fn spread<K: Kernel>(
    kernel: &K,
    set: &Set,
    acc: &[u32],
    rows: &mut [u32],
    rest: &mut [u32],
    scratch: &mut [u32],
)
    requires acc { InRing set.now.ring acc.now }
    requires rows { length rows.old ≡ key_long set.now }
    requires rest { length rest.old ≡ set.now.within.numbers.degree }
    requires scratch { length scratch.old ≡ set.now.within.numbers.degree }
    ensures { Spread (numbers_of set.now) (K.Kernel.reads set.now.ring) acc.now rows.new }
{
    products::split_rows(kernel, set.ring(), set.gadget(), acc, rows, rest, scratch);
}

// The digits of an accumulator as rows of forms, with the keys that take it.
#[derive(Drop)]
pub(crate) struct Rows<'a, K> {
    pub(crate) kernel: &'a K,
    pub(crate) set: &'a Set,
    pub(crate) digits: &'a [u32],
    pub(crate) keys: &'a [u32],
    ghost long: { length digits.now ≡ key_long set.now },
}

impl<K: Kernel> Rows<'_, K> {
    // What the accumulator is when it is taken by key j.
    pub(crate) fn collect(&self, j: usize, sum: &mut [u32], scratch: &mut [u32])
        requires keys { key_end self.now.set.now j * self.now.set.now.within.numbers.degree ≤ length self.now.keys.now }
        requires sum { length sum.old ≡ self.now.set.now.within.numbers.degree }
        requires scratch { length scratch.old ≡ self.now.set.now.within.numbers.degree }
        ensures value { ForDigits K.Kernel.reads self.now.set.now j self.now.keys.now self.now.digits.now (λ old polys. taken_by (numbers_of self.now.set.now) polys j old) sum.new }
        ensures poly { InRing self.now.set.now.ring sum.new }
    {
        products::gather(
            self.kernel,
            self.set.ring(),
            self.digits,
            self.keys,
            j * self.set.digits(),
            sum,
            scratch,
        );
    }
}

// An accumulator below Q becomes itself taken by a key.
fn take_by<K: Kernel>(
    kernel: &K,
    set: &Set,
    acc: &mut [u32],
    key: &[u32],
    work: &mut [u32],
    scratch: &mut [u32],
)
    requires acc { InRing set.now.ring acc.old }
    requires key { length key.now ≡ key_long set.now }
    requires work { length work.old ≡ work_long set.now }
    requires scratch { length scratch.old ≡ set.now.within.numbers.degree }
    ensures { acc.new ≡ taken_words (numbers_of set.now) (polys_in K.Kernel.reads set.now set.now.within.numbers.digits key.now) acc.old }
{
    let (rows, sum) = work.split_at_mut(set.key_words());
    spread(kernel, set, acc, rows, sum, scratch);
    let taken = Rows {
        kernel,
        set,
        digits: rows,
        keys: key,
    };
    taken.collect(0, sum, scratch);
    acc.copy_from_slice(sum);
}

// The lists of the external product have their lengths.
fn check_take(set: &Set, acc: usize, key: usize, work: usize, scratch: usize) -> Result<(), Fault>
    ensures { result ≡ told (take_refused (numbers_of set.now) acc key work scratch) }
{
    check_length(Layer::Sweep, 0, acc, set.degree())?;
    check_length(Layer::Sweep, 1, key, set.key_words())?;
    check_length(Layer::Sweep, 2, work, set.sweep_words())?;
    check_length(Layer::Sweep, 3, scratch, set.degree())
}

// The external product: an accumulator becomes itself taken by a key of d polynomials, kept as forms.
pub fn take<K: Kernel>(
    kernel: &K,
    set: &Set,
    acc: &mut [u32],
    key: &[u32],
    work: &mut [u32],
    scratch: &mut [u32],
) -> Result<(), Fault>
    ensures answer { result ≡ told (take_refused (numbers_of set.now) (length acc.old) (length key.now) (length work.old) (length scratch.old)) }
    ensures acc { acc.new ≡ after result (taken_words (numbers_of set.now) (polys_in K.Kernel.reads set.now set.now.within.numbers.digits key.now) (poly_of set.now.ring acc.old)) acc.old }
    ensures work { work.new ≡ replicate (length work.old) 0 }
    ensures scratch { scratch.new ≡ replicate (length scratch.old) 0 }
{
    let room = Wiped { words: work };
    let spare = Wiped { words: scratch };
    check_take(
        set,
        acc.len(),
        key.len(),
        room.words.len(),
        spare.words.len(),
    )?;
    remainders::reduce(set.ring(), acc);
    take_by(kernel, set, acc, key, room.words, spare.words);
    Ok(())
}
