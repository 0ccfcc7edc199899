use crate::answer::{self, Failure};
use crate::numbers::{list, words};
use kernels::kernel::Kernel;
use kernels::plain::Plain;
use rings::check;
use rings::ring::Ring;
use std::alloc::{AllocError, Global};
use transform::transform::Transform;

// ring N Q ψ
pub fn ring(all: &[i64]) -> Result<Ring, Failure> {
    let [degree, modulus, root] = words::<3>(all)?;
    Ok(check::ring(degree, modulus, root)?)
}

// Some zeros.
fn zeros(heap: Global, count: usize) -> Result<Vec<u32>, AllocError> {
    vec![in heap; 0u32; count]
}

// c + a × b by a kernel; c, a and b are spent.
fn fused<K: Kernel>(
    heap: Global,
    kernel: &K,
    ring: &Ring,
    mut c: Vec<u32>,
    mut a: Vec<u32>,
    mut b: Vec<u32>,
) -> Result<Vec<u32>, Failure> {
    let mut scratch = zeros(heap, ring.degree())?;
    kernel.turn(ring, &mut a, &mut scratch)?;
    kernel.turn(ring, &mut b, &mut scratch)?;
    kernel.turn(ring, &mut c, &mut scratch)?;
    kernel.fold(ring, &mut c, &a, &b)?;
    kernel.back(ring, &mut c, &mut scratch)?;
    Ok(c)
}

// c + a × b, where both kernels answer the same.
fn by_both(
    heap: Global,
    ring: &Ring,
    c: Vec<u32>,
    a: Vec<u32>,
    b: Vec<u32>,
) -> Result<String, Failure> {
    let plain = fused(heap, &Plain, ring, c.clone()?, a.clone()?, b.clone()?)?;
    let fast = fused(heap, &Transform, ring, c, a, b)?;
    if plain != fast {
        return Err(Failure::KernelsDiffer);
    }
    answer::list(heap, &plain)
}

// product and 2N words: a × b
pub fn product(heap: Global, ring: &Ring, all: &[i64]) -> Result<String, Failure> {
    let n = ring.degree();
    let (a, b) = all.split_at_checked(n).ok_or(Failure::Unknown)?;
    let (a, b) = (list(heap, a, n)?, list(heap, b, n)?);
    by_both(heap, ring, zeros(heap, n)?, a, b)
}

// fold and 3N words: c + a × b
pub fn fold(heap: Global, ring: &Ring, all: &[i64]) -> Result<String, Failure> {
    let n = ring.degree();
    let (c, factors) = all.split_at_checked(n).ok_or(Failure::Unknown)?;
    let (a, b) = factors.split_at_checked(n).ok_or(Failure::Unknown)?;
    let (c, a, b) = (list(heap, c, n)?, list(heap, a, n)?, list(heap, b, n)?);
    by_both(heap, ring, c, a, b)
}

// The words of a form in the order of the odd powers of ψ, or back: word i stands where i has its bits mirrored.
fn mirrored(heap: Global, ring: &Ring, words: &[u32]) -> Result<Vec<u32>, AllocError> {
    let unused = 64 - ring.log;
    (0..words.len())
        .map(|i| {
            let place = i.reverse_bits() >> unused;
            words.get(place).copied().unwrap_or(0)
        })
        .collect(heap)
}

// values and N words
pub fn values(heap: Global, ring: &Ring, all: &[i64]) -> Result<String, Failure> {
    let n = ring.degree();
    let mut words = list(heap, all, n)?;
    let mut scratch = zeros(heap, n)?;
    Transform.turn(ring, &mut words, &mut scratch)?;
    answer::list(heap, &mirrored(heap, ring, &words)?)
}

// polynomial and N words
pub fn polynomial(heap: Global, ring: &Ring, all: &[i64]) -> Result<String, Failure> {
    let n = ring.degree();
    let words = list(heap, all, n)?;
    let mut form = mirrored(heap, ring, &words)?;
    let mut scratch = zeros(heap, n)?;
    Transform.back(ring, &mut form, &mut scratch)?;
    answer::list(heap, &form)
}
