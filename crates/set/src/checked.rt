ghost use Rattle.std.specs.Prelude.{◌≡◌, ℕ, ◌^◌, ◌<◌, ◌≤◌, false, is_some};
ghost use Rattle.set.specs.Rules.{rules_broken};

use crate::within::Within;
use rings::ring::Ring;
use words::gadget::Gadget;

// A checked set: numbers within their limits that keep every rule, for the stated noise that it keeps,
// with the ring and the two gadgets that they make.
#[derive(Drop)]
pub struct Set {
    pub within: Within,
    pub stated: u64,
    pub ring: Ring,
    pub gadget: Gadget,
    pub switcher: Gadget,
    ghost rules: { is_some (rules_broken within.numbers stated) ≡ false },
    ghost same: { (ring.degree ≡ within.numbers.degree) × (ring.modulus ≡ within.numbers.modulus) × (ring.root ≡ within.numbers.root) },
    ghost digits: { (gadget.modulus.value ≡ within.numbers.modulus) × (2 ^ gadget.shift ≡ within.numbers.dropped) × (2 ^ gadget.width ≡ within.numbers.base) × (gadget.digits ≡ within.numbers.digits) },
    ghost places: { (switcher.modulus.value ≡ within.numbers.switch) × (2 ^ switcher.shift ≡ 1) × (2 ^ switcher.width ≡ within.numbers.radix) × (switcher.digits ≡ within.numbers.places) },
}
