ghost use Rattle.std.specs.Prelude.{◌≡◌, ◌+◌, ◌*◌, ◌≤◌, length};
ghost use borrow.Rule.Slice.PartMut.{put_mid};
ghost use Rattle.kernels.specs.Polynomials.{poly_of};
ghost use Rattle.sweeps.specs.Forms.{row_of};
ghost use Rattle.engine.specs.Load.{form_rows};

use kernels::kernel::Kernel;
use rings::ring::Ring;

// Row i becomes its form.
fn turn_row<K: Kernel>(kernel: &K, ring: &Ring, i: usize, words: &mut [u32], scratch: &mut [u32])
    requires row { i * ring.now.degree + ring.now.degree ≤ length words.old }
    requires scratch { length scratch.old ≡ ring.now.degree }
    ensures { words.new ≡ put_mid (i * ring.now.degree) ring.now.degree words.old (K.Kernel.form ring.now (poly_of ring.now (row_of ring.now.degree words.old i))) }
{
    let n = ring.degree;
    let at = i * n;
    let _ = kernel.turn(ring, &mut words[at..at + n], scratch);
}

// Each of `count` rows becomes its form.
pub fn turn_rows<K: Kernel>(
    kernel: &K,
    ring: &Ring,
    count: usize,
    words: &mut [u32],
    scratch: &mut [u32],
)
    requires words { length words.old ≡ count * ring.now.degree }
    requires scratch { length scratch.old ≡ ring.now.degree }
    ensures { words.new ≡ form_rows (λ p. K.Kernel.form ring.now (poly_of ring.now p)) ring.now.degree count words.old }
{
    // Counted by hand: over chunks_exact_mut `returns` stayed open, for nothing is known of a chunk's words once it is given back.
    for i in 0..count {
        turn_row(kernel, ring, i, words, scratch);
    }
}
