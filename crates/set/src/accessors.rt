ghost use Rattle.std.specs.Prelude.{◌≡◌, ℕ, ◌*◌, ◌%◌, ◌^◌, ◌<◌, ◌≤◌};

use crate::checked::Set;
use crate::numbers::Numbers;
use rings::ring::Ring;
use words::gadget::Gadget;
use words::modulus::Modulus;

impl Set {
    // The sixteen numbers.
    pub fn numbers(&self) -> Numbers
        ensures { result ≡ self.now.within.numbers }
    {
        self.within.numbers
    }

    // N, the length of a polynomial.
    pub fn degree(&self) -> usize
        ensures value { result ≡ self.now.within.numbers.degree }
        ensures range { (16 ≤ result) × (result ≤ 1024) }
    {
        self.within.numbers.degree as usize
    }

    // n, the length of the small secret.
    pub fn dimension(&self) -> usize
        ensures value { result ≡ self.now.within.numbers.dimension }
        ensures range { (2 ≤ result) × (result ≤ 512) × (result % 2 ≡ 0) }
    {
        self.within.numbers.dimension as usize
    }

    // q, the small modulus.
    pub fn small(&self) -> u32
        ensures value { result ≡ self.now.within.numbers.small }
        ensures range { (32 ≤ result) × (result ≤ 2 * self.now.within.numbers.degree) × (result ≤ 2048) }
    {
        self.within.numbers.small
    }

    // d, the digits of a word modulo Q.
    pub fn digits(&self) -> usize
        ensures value { result ≡ self.now.within.numbers.digits }
        ensures range { (1 ≤ result) × (result ≤ 31) }
    {
        self.within.numbers.digits as usize
    }

    // k, the digits of a word modulo M.
    pub fn places(&self) -> usize
        ensures value { result ≡ self.now.within.numbers.places }
        ensures range { (1 ≤ result) × (result ≤ 20) }
    {
        self.within.numbers.places as usize
    }

    // The ring of N, Q and ψ.
    pub fn ring(&self) -> &Ring
        ensures { result.now ≡ self.now.ring }
    {
        &self.ring
    }

    // The gadget of Q, P, B and d.
    pub fn gadget(&self) -> &Gadget
        ensures { result.now ≡ self.now.gadget }
    {
        &self.gadget
    }

    // The gadget of M, C and k.
    pub fn switcher(&self) -> &Gadget
        ensures { result.now ≡ self.now.switcher }
    {
        &self.switcher
    }

    // Q, M and q as moduli.
    pub fn wide(&self) -> Modulus
        ensures { result.value ≡ self.now.within.numbers.modulus }
    {
        self.gadget.modulus
    }

    pub fn middle(&self) -> Modulus
        ensures { result.value ≡ self.now.within.numbers.switch }
    {
        self.switcher.modulus
    }

    pub fn least(&self) -> Modulus
        ensures { result.value ≡ self.now.within.numbers.small }
    {
        Modulus {
            value: self.within.numbers.small,
        }
    }
}
