ghost use Rattle.std.specs.Prelude.{◌≡◌, ℕ, ◌+◌, ◌*◌, ◌^◌, ◌<◌, ◌≤◌};

use crate::checked::Set;

// How many words the lists have that a call on a set is lent.
impl Set {
    // n + 1: a ciphertext, or a register.
    pub fn cipher_words(&self) -> usize
        ensures value { result ≡ self.now.within.numbers.dimension + 1 }
        ensures range { (3 ≤ result) × (result ≤ 513) }
    {
        self.dimension() + 1
    }

    // N + 1: an extracted sample.
    pub fn sample_words(&self) -> usize
        ensures value { result ≡ self.now.within.numbers.degree + 1 }
        ensures few { result ≤ 1025 }
    {
        self.degree() + 1
    }

    // d polynomials: the start key, or one selector.
    pub fn key_words(&self) -> usize
        ensures value { result ≡ self.now.within.numbers.digits * self.now.within.numbers.degree }
        ensures range { (16 ≤ result) × (result ≤ 31 * 1024) }
    {
        self.digits() * self.degree()
    }

    // So many selectors; a sweep takes 2^14 at the most, and more count as so many.
    pub fn selector_words(&self, count: usize) -> usize
        ensures value { count ≤ 2 ^ 14 → result ≡ count * self.now.within.numbers.digits * self.now.within.numbers.degree }
        ensures most { 2 ^ 14 ≤ count → result ≡ 2 ^ 14 * self.now.within.numbers.digits * self.now.within.numbers.degree }
        ensures few { result ≤ 2 ^ 29 }
    {
        count.min(1 << 14) * self.digits() * self.degree()
    }

    // The switch rows.
    pub fn row_words(&self) -> usize
        ensures value { result ≡ self.now.within.numbers.degree * (self.now.within.numbers.places * (self.now.within.numbers.dimension + 1)) }
        ensures few { result ≤ 2 ^ 24 }
    {
        self.degree() * (self.places() * self.cipher_words())
    }

    // Work memory of a sweep: a polynomial for each digit, and a sum.
    pub fn sweep_words(&self) -> usize
        ensures value { result ≡ (self.now.within.numbers.digits + 1) * self.now.within.numbers.degree }
        ensures few { result ≤ 2 ^ 15 }
    {
        (self.digits() + 1) * self.degree()
    }
}
