ghost use Rattle.std.specs.Prelude.{◌≡◌, ℕ, ◌+◌, ◌-◌, ◌*◌, ◌/◌, ◌^◌, ◌<◌, ◌≤◌, length, pos};
ghost use borrow.Rule.Slice.PartMut.{put_mid};
ghost use Rattle.algebra.specs.Words.{words};
ghost use Rattle.kernels.specs.Polynomials.{InRing};
ghost use Rattle.sweeps.specs.Forms.{row_of};
ghost use Rattle.sweeps.specs.Held.{AllHeld};
ghost use Rattle.sweeps.specs.Rest.{Remains, digit_row, split_row, gathered};

use crate::digits;
use kernels::kernel::Kernel;
use rings::ring::Ring;
use words::gadget::Gadget;

// Row i becomes the form of the lowest digits that are left, and the numbers what remains of them.
fn fill_row<K: Kernel>(
    kernel: &K,
    ring: &Ring,
    gadget: &Gadget,
    i: usize,
    rows: &mut [u32],
    rest: &mut [u32],
    scratch: &mut [u32],
)
    requires same { ring.now.modulus ≡ gadget.now.modulus.value }
    requires place { i < gadget.now.digits }
    requires rows { i * ring.now.degree + ring.now.degree ≤ length rows.old }
    requires rest { length rest.old ≡ ring.now.degree }
    requires scratch { length scratch.old ≡ ring.now.degree }
    requires held { AllHeld ring.now.modulus rest.old }
    ensures rows { rows.new ≡ put_mid (i * ring.now.degree) ring.now.degree rows.old (K.Kernel.form ring.now (digit_row ring.now (2 ^ gadget.now.width) (gadget.now.digits - i) rest.old 0)) }
    ensures rest { Remains (2 ^ gadget.now.width) (gadget.now.digits - i) rest.old rest.new }
    ensures held { AllHeld ring.now.modulus rest.new }
{
    let n = ring.degree;
    let at = i * n;
    let row = &mut rows[at..at + n];
    digits::cut(rest, row, gadget.digits as usize - i, gadget);
    let _ = kernel.turn(ring, row, scratch);
}

// Row i becomes the form of digit i of the numbers.
fn fill_rows<K: Kernel>(
    kernel: &K,
    ring: &Ring,
    gadget: &Gadget,
    rows: &mut [u32],
    rest: &mut [u32],
    scratch: &mut [u32],
)
    requires same { ring.now.modulus ≡ gadget.now.modulus.value }
    requires rows { length rows.old ≡ gadget.now.digits * ring.now.degree }
    requires rest { length rest.old ≡ ring.now.degree }
    requires scratch { length scratch.old ≡ ring.now.degree }
    requires held { AllHeld ring.now.modulus rest.old }
    ensures { (i : ℕ) → i < gadget.now.digits → row_of ring.now.degree rows.new i ≡ K.Kernel.form ring.now (digit_row ring.now (2 ^ gadget.now.width) gadget.now.digits rest.old i) }
{
    // Counted by hand: tried with chunks_exact_mut, after which a proof knows nothing of the rows, and the clause on them stays open.
    for i in 0..gadget.digits as usize {
        fill_row(kernel, ring, gadget, i, rows, rest, scratch);
    }
}

// Row i becomes the form of digit i of an accumulator.
pub fn split_rows<K: Kernel>(
    kernel: &K,
    ring: &Ring,
    gadget: &Gadget,
    acc: &[u32],
    rows: &mut [u32],
    rest: &mut [u32],
    scratch: &mut [u32],
)
    requires same { ring.now.modulus ≡ gadget.now.modulus.value }
    requires acc { InRing ring.now acc.now }
    requires rows { length rows.old ≡ gadget.now.digits * ring.now.degree }
    requires rest { length rest.old ≡ ring.now.degree }
    requires scratch { length scratch.old ≡ ring.now.degree }
    ensures { (i : ℕ) → i < gadget.now.digits → K.Kernel.reads ring.now (row_of ring.now.degree rows.new i) ≡ split_row ring.now gadget.now acc.now i }
{
    digits::lower(acc, rest, gadget);
    fill_rows(kernel, ring, gadget, rows, rest, scratch);
}

// The products of the rows with those of a key, from the row `first` on, are added to a form.
fn fold_rows<K: Kernel>(
    kernel: &K,
    ring: &Ring,
    rows: &[u32],
    keys: &[u32],
    first: usize,
    sum: &mut [u32],
)
    requires keys { first * ring.now.degree + length rows.now ≤ length keys.now }
    requires sum { length sum.old ≡ ring.now.degree }
    requires zero { K.Kernel.reads ring.now sum.old ≡ words ring.now.degree ring.now.modulus (λ k. pos 0) }
    ensures { K.Kernel.reads ring.now sum.new ≡ gathered K.Kernel.reads ring.now (length rows.now / ring.now.degree) rows.now keys.now first }
{
    let n = ring.degree;
    let key = &keys[first * n..];
    for (row, part) in rows.chunks_exact(n).zip(key.chunks_exact(n)) {
        let _ = kernel.fold(ring, sum, row, part);
    }
}

// The sum of the products of the rows with those of a key, as a polynomial.
pub fn gather<K: Kernel>(
    kernel: &K,
    ring: &Ring,
    rows: &[u32],
    keys: &[u32],
    first: usize,
    sum: &mut [u32],
    scratch: &mut [u32],
)
    requires keys { first * ring.now.degree + length rows.now ≤ length keys.now }
    requires sum { length sum.old ≡ ring.now.degree }
    requires scratch { length scratch.old ≡ ring.now.degree }
    ensures { sum.new ≡ gathered K.Kernel.reads ring.now (length rows.now / ring.now.degree) rows.now keys.now first }
{
    sum.fill(0);
    let _ = kernel.turn(ring, sum, scratch);
    fold_rows(kernel, ring, rows, keys, first, sum);
    let _ = kernel.back(ring, sum, scratch);
}
