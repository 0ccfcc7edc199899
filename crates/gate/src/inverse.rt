ghost use Rattle.std.specs.Prelude.{◌≡◌, length, OnOk};
ghost use Rattle.faults.specs.Least.{told};
ghost use Rattle.kernels.specs.Lengths.{after};
ghost use Rattle.gate.specs.Lengths.{words_of};
ghost use Rattle.gate.specs.Stages.{inverted_of};
ghost use Rattle.gate.specs.Gates.{invert_refused, InvertHolds};

use crate::lengths::check_lengths;
use crate::vectors::invert_words;
use faults::fault::Fault;
use set::checked::Set;

fn invert_right(set: &Set, x: &[u16], out: &mut [u16])
    requires x { length x.now ≡ words_of set.now.within.numbers }
    requires out { length out.old ≡ words_of set.now.within.numbers }
    ensures words { out.new ≡ inverted_of set.now.within.numbers x.now }
    ensures holds { InvertHolds set.now.within x.now out.new }
{
    out.copy_from_slice(x);
    invert_words(set.dimension(), set.least(), out);
}

// The words -a_i and q/4 - b of a ciphertext: the opposite bit, with the same noise.
pub fn invert(set: &Set, x: &[u16], out: &mut [u16]) -> Result<(), Fault>
    ensures answer { result ≡ told (invert_refused set.now.within.numbers (length x.now) (length out.old)) }
    ensures words { out.new ≡ after result (inverted_of set.now.within.numbers x.now) out.old }
    ensures holds { OnOk result (InvertHolds set.now.within x.now out.new) }
{
    let words = set.cipher_words();
    check_lengths(&[(x.len(), words), (out.len(), words)])?;
    invert_right(set, x, out);
    Ok(())
}
