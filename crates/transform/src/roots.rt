ghost use Rattle.std.specs.Prelude.{◌≡◌, ℕ, ◌+◌, ◌*◌, ◌/◌, ◌%◌, ◌^◌, ◌<◌, ◌≤◌, length, slice_index};
ghost use Rattle.transform.specs.Stages.{Quotients, row};

use crate::field;
use rings::ring::Ring;

// The roots of a stage, with the quotients that multiplication by them wants.
#[derive(Clone, Copy)]
pub struct Roots<'a> {
    pub ring: &'a Ring,
    pub factors: &'a [u32],
    pub quotients: &'a [u32],
    ghost long: { length quotients.now ≡ length factors.now },
    ghost shoup: { Quotients ring.now.modulus factors.now quotients.now },
}

// Row s of a table.
fn row_of(table: &[u32; 5120], s: usize, half: usize) -> &[u32]
    requires { s * half + half ≤ 5120 }
    ensures same { result.now ≡ row s half table.now }
    ensures long { length result.now ≡ half }
{
    let at = s * half;
    &table[at..at + half]
}

impl Roots<'_> {
    // The roots of stage s of a ring.
    pub fn of(ring: &Ring, s: usize) -> Roots<'_>
        requires { s < ring.now.log }
        ensures factors { result.factors.now ≡ row s ring.now.half ring.now.roots }
        ensures long { length result.factors.now ≡ ring.now.half }
        ensures ring { result.ring.now ≡ ring.now }
    {
        Roots {
            ring,
            factors: row_of(&ring.roots, s, ring.half),
            quotients: row_of(&ring.quotients, s, ring.half),
        }
    }

    // x times root j.
    pub fn times(&self, x: u32, j: usize) -> u32
        requires { j < length self.now.factors.now }
        ensures { result ≡ x * slice_index self.now.factors.now j % self.now.ring.now.modulus }
    {
        field::mul_shoup(self.ring, x, self.factors[j], self.quotients[j])
    }
}
