ghost use Rattle.std.specs.Prelude.{◌≡◌, ℕ, ◌+◌, ◌-◌, ◌*◌, ◌/◌, ◌%◌, ◌^◌, ◌<◌, ◌≤◌, length, IfOk, IfSome, unwrap_or, ◌==◌};
ghost use Rattle.faults.specs.Least.{Least, refusal};
ghost use Rattle.rings.specs.Rules.{log_of, fits_modulus, fits_root, ring_broken, WrongRing};

use crate::ring::Ring;
use crate::{build, tables};
use faults::fault::Fault;

// The logarithm of a legal degree.
fn log_of(degree: u32) -> Option<usize>
    ensures same { unwrap_or result 0 ≡ log_of degree }
    ensures power { IfSome result (λ k. degree ≡ 2 ^ k) }
    ensures range { IfSome result (λ k. (2 ≤ k) × (k ≤ 10)) }
{
    // Kept: the table of the definition; `(2..=10).find(|log| degree == 1 << log)` left `returns-clause-same` open.
    match degree {
        4 => Some(2),
        8 => Some(3),
        16 => Some(4),
        32 => Some(5),
        64 => Some(6),
        128 => Some(7),
        256 => Some(8),
        512 => Some(9),
        1024 => Some(10),
        _ => None,
    }
}

// Whether root^degree is -1, told by the power degree / 2.
fn wraps(degree: usize, modulus: u32, root: u32, halfway: u32) -> bool
    requires even { degree ≡ 2 * (degree / 2) }
    requires some { 1 < modulus }
    requires power { halfway ≡ root ^ (degree / 2) % modulus }
    ensures { result ≡ (root ^ degree % modulus == modulus - 1) }
{
    (halfway as u64 * halfway as u64 % modulus as u64) as u32 == modulus - 1
}

// The ring of N, Q and ψ, or the least of the faults that they have.
#[tactic(auto, using(crate::proofs::Refusals::ring_answer))]
pub fn ring(degree: u32, modulus: u32, root: u32) -> Result<Ring, Fault>
    ensures answer { refusal result ≡ ring_broken degree modulus root }
    ensures made { IfOk result (λ s. (s.degree ≡ degree) × (s.modulus ≡ modulus) × (s.root ≡ root)) }
    ensures least { Least (WrongRing degree modulus root) (refusal result) }
{
    let log = log_of(degree).ok_or(Fault::Field { field: 0 })?;
    if modulus % 2 == 0 || !(17..0x8000_0000).contains(&modulus) {
        return Err(Fault::Field { field: 3 });
    }
    if !(1..modulus).contains(&root) {
        return Err(Fault::Field { field: 4 });
    }
    // Kept: room for the largest degree, since there is no heap.
    let mut powers = [0u32; 1024];
    tables::fill_powers(root, modulus, &mut powers);
    let degree = degree as usize;
    if !wraps(degree, modulus, root, powers[degree / 2]) {
        return Err(Fault::Root);
    }
    Ok(build::build(degree, log, modulus, root, &powers))
}
