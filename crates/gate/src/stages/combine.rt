ghost use Rattle.std.specs.Prelude.{◌≡◌, length};
ghost use Rattle.gate.specs.Lengths.{begun, wrote, words_of, combine_refused};
ghost use Rattle.gate.specs.Stages.{combined_of};

use super::Combined;
use crate::lengths::check_lengths;
use crate::letter::Letter;
use crate::vectors::combine_words;
use faults::fault::Fault;
use set::checked::Set;

// The same, of lists that have their lengths.
pub(crate) fn combine_right(
    set: &Set,
    letter: Letter,
    x: &[u16],
    y: &[u16],
    out: &mut [u16],
) -> Combined
    requires x { length x.now ≡ words_of set.now.within.numbers }
    requires y { length y.now ≡ words_of set.now.within.numbers }
    requires out { length out.old ≡ words_of set.now.within.numbers }
    ensures token { result.words ≡ words_of set.now.within.numbers }
    ensures out { out.new ≡ combined_of set.now.within.numbers letter x.now y.now }
{
    combine_words(
        set.dimension(),
        set.least(),
        letter.offset(),
        letter.times(),
        x,
        y,
        out,
    );
    Combined { words: out.len() }
}

// The first stage: two ciphertexts become one, on whose half of the circle the gate's bit lies.
pub fn combine(
    set: &Set,
    letter: Letter,
    x: &[u16],
    y: &[u16],
    out: &mut [u16],
) -> Result<Combined, Fault>
    ensures answer { result ≡ begun (combine_refused set.now.within.numbers (length x.now) (length y.now) (length out.old)) (record { words = words_of set.now.within.numbers }) }
    ensures out { out.new ≡ wrote result (combined_of set.now.within.numbers letter x.now y.now) out.old }
{
    let words = set.cipher_words();
    check_lengths(&[(x.len(), words), (y.len(), words), (out.len(), words)])?;
    Ok(combine_right(set, letter, x, y, out))
}
