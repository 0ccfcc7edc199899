ghost use Rattle.std.specs.Prelude.{◌≡◌, ℕ, ◌+◌, ◌-◌, ◌*◌, ◌/◌, ◌%◌, ◌^◌, ◌<◌, ◌≤◌, length};
ghost use Rattle.kernels.specs.Polynomials.{Below, InRing};
ghost use Rattle.transform.specs.Stages.{plus, minus, Staged, staged, sums, diffs, Unstaged, unstaged, row, unruns};
ghost use Rattle.transform.specs.Values.{values};

use crate::field;
use crate::roots::Roots;
use rings::ring::Ring;

// What stands at 2 j and at 2 j + 1 after a stage, for x of two halves.
fn butterfly(x: &[u32], roots: &Roots, j: usize) -> (u32, u32)
    requires pair { j < length roots.now.factors.now }
    requires halves { length x.now ≡ 2 * length roots.now.factors.now }
    requires words { Below roots.now.ring.now.modulus x.now }
    ensures even { result.0 ≡ plus roots.now.ring.now.modulus roots.now.factors.now x.now j }
    ensures odd { result.1 ≡ minus roots.now.ring.now.modulus roots.now.factors.now x.now j }
{
    let u = x[j];
    let v = roots.times(x[j + roots.factors.len()], j);
    let sum = field::reduce_once(roots.ring, u + v);
    let difference = field::subtract(roots.ring, u, v);
    (sum, difference)
}

// One stage, from x to y.
fn stage(x: &[u32], y: &mut [u32], roots: &Roots)
    requires halves { length x.now ≡ 2 * length roots.now.factors.now }
    requires pairs { length y.old ≡ 2 * length roots.now.factors.now }
    requires words { Below roots.now.ring.now.modulus x.now }
    ensures { Staged roots.now.ring.now.modulus roots.now.factors.now x.now y.new (length roots.now.factors.now) }
{
    // Counted by hand: with chunks_exact_mut(2) `returns` stays open, as nothing is known of what the slice ends as.
    for j in 0..roots.factors.len() {
        let (even, odd) = butterfly(x, roots, j);
        y[2 * j] = even;
        y[2 * j + 1] = odd;
    }
}

// Twice what stood at j and at j + h before a stage. The root at the other end of the row is minus the inverse.
fn unbutterfly(y: &[u32], roots: &Roots, j: usize) -> (u32, u32)
    requires pair { j < length roots.now.factors.now }
    requires pairs { length y.now ≡ 2 * length roots.now.factors.now }
    requires words { Below roots.now.ring.now.modulus y.now }
    ensures low { result.0 ≡ sums roots.now.ring.now.modulus y.now j }
    ensures high { result.1 ≡ diffs roots.now.ring.now.modulus roots.now.factors.now y.now j }
{
    let u = y[2 * j];
    let v = y[2 * j + 1];
    let low = field::reduce_once(roots.ring, u + v);
    let high = roots.times(v + (roots.ring.modulus - u), roots.factors.len() - 1 - j);
    (low, high)
}

// One stage taken back, from y to x, up to a factor 2.
fn unstage(y: &[u32], x: &mut [u32], roots: &Roots)
    requires pairs { length y.now ≡ 2 * length roots.now.factors.now }
    requires halves { length x.old ≡ 2 * length roots.now.factors.now }
    requires words { Below roots.now.ring.now.modulus y.now }
    ensures { Unstaged roots.now.ring.now.modulus roots.now.factors.now y.now x.new (length roots.now.factors.now) }
{
    let (front, back) = x.split_at_mut(roots.factors.len());
    for (j, first) in front.iter_mut().enumerate() {
        let (low, high) = unbutterfly(y, roots, j);
        *first = low;
        back[j] = high;
    }
}

// Stage s of the ring, from x to y.
fn forth(ring: &Ring, s: usize, x: &[u32], y: &mut [u32])
    requires stage { s < ring.now.log }
    requires from { InRing ring.now x.now }
    requires to { length y.old ≡ ring.now.degree }
    ensures same { y.new ≡ staged ring.now.modulus (row s ring.now.half ring.now.roots) x.now }
    ensures below { Below ring.now.modulus y.new }
{
    let roots = Roots::of(ring, s);
    stage(x, y, &roots);
}

// Stage s of the ring taken back, from y to x.
fn aback(ring: &Ring, s: usize, y: &[u32], x: &mut [u32])
    requires stage { s < ring.now.log }
    requires from { InRing ring.now y.now }
    requires to { length x.old ≡ ring.now.degree }
    ensures same { x.new ≡ unstaged ring.now.modulus (row s ring.now.half ring.now.roots) y.now }
    ensures below { Below ring.now.modulus x.new }
{
    let roots = Roots::of(ring, s);
    unstage(y, x, &roots);
}

// A polynomial becomes its values: all stages, two a turn, between a and t.
pub fn evaluate(ring: &Ring, a: &mut [u32], t: &mut [u32])
    requires from { InRing ring.now a.old }
    requires to { length t.old ≡ ring.now.degree }
    ensures { a.new ≡ values ring.now a.old }
{
    let log = ring.log;
    // Counted by hand: no plainer form, as k counts the stages that forth is told and no list is walked.
    for k in 0..log / 2 {
        forth(ring, 2 * k, a, t);
        forth(ring, 2 * k + 1, t, a);
    }
    if log % 2 == 1 {
        forth(ring, log - 1, a, t);
        a.copy_from_slice(t);
    }
}

// All stages taken back, up to a factor N.
pub fn descend(ring: &Ring, a: &mut [u32], t: &mut [u32])
    requires from { InRing ring.now a.old }
    requires to { length t.old ≡ ring.now.degree }
    ensures { a.new ≡ unruns ring.now ring.now.log a.old }
{
    let log = ring.log;
    // Counted by hand: no plainer form, as k counts the stages that aback is told and no list is walked.
    for k in 0..log / 2 {
        aback(ring, log - 1 - 2 * k, a, t);
        aback(ring, log - 2 - 2 * k, t, a);
    }
    if log % 2 == 1 {
        aback(ring, 0, a, t);
        a.copy_from_slice(t);
    }
}
