ghost use Rattle.std.specs.Prelude.{◌≡◌, ℕ, ◌^◌, ◌<◌, ◌≤◌};

use crate::ring::Ring;

impl Ring {
    // N, the number of words of a polynomial.
    pub fn degree(&self) -> usize
        ensures same { result ≡ self.now.degree }
        ensures range { (4 ≤ result) × (result ≤ 1024) }
    {
        self.degree
    }

    // Q, what words are counted modulo.
    pub fn modulus(&self) -> u32
        ensures same { result ≡ self.now.modulus }
        ensures range { (17 ≤ result) × (result < 2 ^ 31) }
    {
        self.modulus
    }

    // ψ, whose power N is -1.
    pub fn root(&self) -> u32
        ensures same { result ≡ self.now.root }
        ensures range { (1 ≤ result) × (result < self.now.modulus) }
    {
        self.root
    }
}
