ghost use Rattle.std.specs.Prelude.{◌≡◌, length, replicate};
ghost use Rattle.gate.specs.Lengths.{staged, wrote, spent, sample_of, narrow_refused};
ghost use Rattle.gate.specs.Stages.{narrowed_of};

use super::{Declined, Extracted, Narrowed};
use crate::lengths::check_lengths;
use crate::vectors::narrow_words;
use set::checked::Set;

// The same, of lists that have their lengths.
pub(crate) fn narrow_right(
    set: &Set,
    words: &mut [u32],
    out: &mut [u32],
    token: Extracted,
) -> Narrowed
    requires words { length words.old ≡ sample_of set.now.within.numbers }
    requires out { length out.old ≡ sample_of set.now.within.numbers }
    ensures token { result.words ≡ sample_of set.now.within.numbers }
    ensures words { words.new ≡ replicate (length words.old) 0 }
    ensures out { out.new ≡ narrowed_of set.now.within.numbers words.old }
{
    let Extracted { words: _ } = token;
    narrow_words(set.wide(), set.middle(), words, out);
    words.fill(0);
    Narrowed { words: out.len() }
}

// The fifth stage, modulus switching: words modulo Q are rounded to M.
pub fn narrow(
    set: &Set,
    words: &mut [u32],
    out: &mut [u32],
    token: Extracted,
) -> Result<Narrowed, Declined<Extracted>>
    ensures answer { result ≡ staged (narrow_refused set.now.within.numbers (length words.entry.now) (length out.old)) (record { words = sample_of set.now.within.numbers }) token }
    ensures words { words.new ≡ spent result words.old }
    ensures out { out.new ≡ wrote result (narrowed_of set.now.within.numbers words.old) out.old }
{
    let sample = set.sample_words();
    let token = Declined::unless(
        check_lengths(&[(words.len(), sample), (out.len(), sample)]),
        token,
    )?;
    Ok(narrow_right(set, words, out, token))
}
