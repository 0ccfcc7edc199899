ghost use Rattle.std.specs.Prelude.{◌≡◌, ◌^◌, ◌<◌, length, slice_index};
ghost use Rattle.algebra.specs.Digits.{digit_of};
ghost use Rattle.algebra.specs.Words.{words};
ghost use Rattle.kernels.specs.Polynomials.{Below};
ghost use Rattle.sweeps.specs.Held.{under, AllHeld, Lowered, Peeled};
ghost use Rattle.sweeps.specs.Rest.{rest_digit, Remains};

use crate::held;
use words::gadget::Gadget;
use words::modulus::Modulus;

// The number to split of each word of an accumulator: its representative without the dropped part.
pub fn lower(acc: &[u32], rest: &mut [u32], gadget: &Gadget)
    requires below { Below gadget.now.modulus.value acc.now }
    requires long { length rest.old ≡ length acc.now }
    ensures value { Lowered gadget.now.modulus.value (2 ^ gadget.now.shift) acc.now rest.new }
    ensures held { AllHeld gadget.now.modulus.value rest.new }
{
    let shift = gadget.shift;
    let modulus = gadget.modulus;
    for (k, x) in rest.iter_mut().enumerate() {
        *x = held::quotient(held::centre(acc[k], modulus), shift, modulus);
    }
}

// The lowest digit of each number, as words. What remains of the numbers is left.
fn peel(rest: &mut [u32], row: &mut [u32], gadget: &Gadget)
    requires held { AllHeld gadget.now.modulus.value rest.old }
    requires long { length row.old ≡ length rest.old }
    ensures row { row.new ≡ words (length rest.old) gadget.now.modulus.value (λ k. digit_of (2 ^ gadget.now.width) (under (slice_index rest.old k))) }
    ensures rest { Peeled (2 ^ gadget.now.width) rest.old rest.new }
    ensures held { AllHeld gadget.now.modulus.value rest.new }
{
    let width = gadget.width;
    let modulus = gadget.modulus;
    for (k, x) in rest.iter_mut().enumerate() {
        row[k] = held::digit_word(*x, width, modulus);
        *x = held::quotient(*x, width, modulus);
    }
}

// The last digit of each number, which is the number.
fn finish(rest: &[u32], row: &mut [u32], modulus: Modulus)
    requires held { AllHeld modulus.value rest.now }
    requires long { length row.old ≡ length rest.now }
    ensures { row.new ≡ words (length rest.now) modulus.value (λ k. under (slice_index rest.now k)) }
{
    for (k, word) in row.iter_mut().enumerate() {
        *word = held::whole_word(rest[k], modulus);
    }
}

// The lowest of the `left` digits of each number, as words, and what remains for the others.
pub fn cut(rest: &mut [u32], row: &mut [u32], left: usize, gadget: &Gadget)
    requires left { 0 < left }
    requires held { AllHeld gadget.now.modulus.value rest.old }
    requires long { length row.old ≡ length rest.old }
    ensures row { row.new ≡ words (length rest.old) gadget.now.modulus.value (rest_digit (2 ^ gadget.now.width) left rest.old 0) }
    ensures rest { Remains (2 ^ gadget.now.width) left rest.old rest.new }
    ensures held { AllHeld gadget.now.modulus.value rest.new }
{
    if left > 1 {
        peel(rest, row, gadget);
    } else {
        finish(rest, row, gadget.modulus);
    }
}
