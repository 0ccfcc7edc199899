ghost use Rattle.std.specs.Prelude.{◌≡◌, ℕ, ◌*◌, ◌/◌, ◌^◌, ◌<◌, ◌≤◌, length, pos, ◌-ℤ◌, ◌*ℤ◌, neg_ℤ, ◌≤ℤ◌, ◌<ℤ◌, is_ok, if◌then◌else◌};
ghost use Rattle.faults.specs.Least.{Least, told};
ghost use Rattle.algebra.specs.Ints.{floor_z};
ghost use Rattle.algebra.specs.Digits.{digit_of, rest_of};
ghost use Rattle.words.specs.Digits.{centred_of, digits_of, scaled_of, split_of};
ghost use Rattle.words.specs.Gadgets.{StepRight, SplitRight, Centred, split_refused, WrongSplit};

use super::Gadget;
use crate::modulus::Modulus;
use faults::fault::{Fault, Layer};

// The representative of a word above -R/2 and at most R/2.
pub fn centred(word: u32, modulus: &Modulus) -> i64
    ensures value { result ≡ centred_of modulus.now.value word }
    ensures right { Centred modulus.now.value word result }
{
    let modulus = modulus.get();
    let x = word % modulus;
    if 2 * (x as u64) <= modulus as u64 {
        x as i64
    } else {
        x as i64 - modulus as i64
    }
}

// The base 2^width.
fn base_of(width: u32) -> i64
    requires { width ≤ 16 }
    ensures { result ≡ pos (2 ^ width) }
{
    1i64 << width
}

// The quotient by 2^width, rounded down.
fn floor_by(u: i64, width: u32) -> i64
    requires { width ≤ 16 }
    ensures { result ≡ floor_z u (2 ^ width) }
{
    u >> width
}

// What the quotient leaves.
fn left_by(u: i64, width: u32) -> i64
    requires { width ≤ 16 }
    ensures value { result ≡ u -ℤ pos (2 ^ width) *ℤ floor_z u (2 ^ width) }
    ensures low { pos 0 ≤ℤ result }
    ensures high { result <ℤ pos (2 ^ width) }
{
    u - floor_by(u, width) * base_of(width)
}

impl Gadget {
    // One step of the split: a digit, and the exact rest.
    pub fn step(&self, u: i64) -> (i64, i64)
        ensures digit { result.0 ≡ digit_of (2 ^ self.now.width) u }
        ensures rest { result.1 ≡ rest_of (2 ^ self.now.width) u }
        ensures right { StepRight (2 ^ self.now.width) u result.0 result.1 }
    {
        let base = base_of(self.width);
        let floor = floor_by(u, self.width);
        let left = left_by(u, self.width);
        if left + left < base {
            (left, floor)
        } else {
            (left - base, floor + 1)
        }
    }

    // The digits of a word, lowest first, one to each place of `out`.
    pub fn split(&self, word: u32, out: &mut [i64]) -> Result<(), Fault>
        ensures answer { result ≡ told (split_refused self.now.digits (length out.old)) }
        ensures digits { out.new ≡ (if is_ok result then split_of self.now.modulus.value (2 ^ self.now.shift) (2 ^ self.now.width) self.now.digits word else out.old) }
        ensures right { SplitRight self.now.modulus.value (2 ^ self.now.shift) (2 ^ self.now.width) self.now.digits word }
        ensures least { Least (WrongSplit self.now.digits (length out.old)) (split_refused self.now.digits (length out.old)) }
    {
        if out.len() != self.digits as usize {
            return Err(Fault::Length {
                list: 0,
                part: Layer::Digits,
            });
        }
        self.fill(self.scaled(word), out);
        Ok(())
    }

    // The word's representative without its dropped part, rounded.
    fn scaled(&self, word: u32) -> i64
        ensures { result ≡ scaled_of self.now.modulus.value (2 ^ self.now.shift) word }
    {
        let half = base_of(self.shift) >> 1;
        floor_by(centred(word, &self.modulus) + half, self.shift)
    }

    // The digits of a number, one to each place of `out`.
    fn fill(&self, number: i64, out: &mut [i64])
        requires { length out.old ≡ self.now.digits }
        ensures { out.new ≡ digits_of (2 ^ self.now.width) (length out.old) number }
    {
        let mut u = number;
        if let Some((last, firsts)) = out.split_last_mut() {
            for place in firsts {
                (*place, u) = self.step(u);
            }
            *last = u;
        }
    }
}
