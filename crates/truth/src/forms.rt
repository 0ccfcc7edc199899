use faults::fault::{Fault, Layer};
use kernels::kernel::Kernel;
use rings::ring::Ring;

// Turns polynomials into forms.
pub fn turn_all<K: Kernel>(
    kernel: &K,
    ring: &Ring,
    words: &mut [u32],
    scratch: &mut [u32],
) -> Result<(), Fault> {
    let n = ring.degree();
    if words.len() % n != 0 {
        return Err(Fault::Length {
            list: 0,
            part: Layer::Kernel,
        });
    }
    for polynomial in words.chunks_exact_mut(n) {
        kernel.turn(ring, polynomial, scratch)?;
    }
    Ok(())
}
