ghost use Rattle.std.specs.Prelude.{◌≡◌, length, replicate};
ghost use Rattle.gate.specs.Lengths.{staged, wrote, spent, words_of, finish_refused};
ghost use Rattle.gate.specs.Stages.{finished_of};

use super::{Declined, Switched};
use crate::lengths::check_lengths;
use crate::vectors::narrow_words;
use set::checked::Set;

// The same, of lists that have their lengths.
pub(crate) fn finish_right(set: &Set, words: &mut [u32], out: &mut [u16], token: Switched)
    requires words { length words.old ≡ words_of set.now.within.numbers }
    requires out { length out.old ≡ words_of set.now.within.numbers }
    ensures words { words.new ≡ replicate (length words.old) 0 }
    ensures out { out.new ≡ finished_of set.now.within.numbers words.old }
{
    let Switched { words: _ } = token;
    narrow_words(set.middle(), set.least(), words, out);
    words.fill(0);
}

// The last stage: words modulo M are rounded to q. The result is a ciphertext.
pub fn finish(
    set: &Set,
    words: &mut [u32],
    out: &mut [u16],
    token: Switched,
) -> Result<(), Declined<Switched>>
    ensures answer { result ≡ staged (finish_refused set.now.within.numbers (length words.old) (length out.old)) tt token }
    ensures words { words.new ≡ spent result words.old }
    ensures out { out.new ≡ wrote result (finished_of set.now.within.numbers words.old) out.old }
{
    let right = set.cipher_words();
    let token = Declined::unless(
        check_lengths(&[(words.len(), right), (out.len(), right)]),
        token,
    )?;
    finish_right(set, words, out, token);
    Ok(())
}
