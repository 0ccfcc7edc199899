ghost use Rattle.std.specs.Prelude.{◌≡◌, length, replicate};
ghost use Rattle.gate.specs.Lengths.{staged, wrote, spent, words_of, sample_of, rows_length, switch_refused};
ghost use Rattle.gate.specs.Stages.{switched_of};

use super::{Declined, Narrowed, Switched};
use crate::lengths::check_lengths;
use crate::switching::switch_words;
use set::checked::Set;

// The same, of lists that have their lengths.
pub(crate) fn switch_right(
    set: &Set,
    words: &mut [u32],
    out: &mut [u32],
    rows: &[u32],
    token: Narrowed,
) -> Switched
    requires words { length words.old ≡ sample_of set.now.within.numbers }
    requires out { length out.old ≡ words_of set.now.within.numbers }
    requires rows { length rows.now ≡ rows_length set.now.within.numbers }
    ensures token { result.words ≡ words_of set.now.within.numbers }
    ensures words { words.new ≡ replicate (length words.old) 0 }
    ensures out { out.new ≡ switched_of set.now.within.numbers rows.now words.old }
{
    let Narrowed { words: _ } = token;
    switch_words(
        set.switcher(),
        set.degree(),
        set.dimension(),
        words,
        rows,
        out,
    );
    words.fill(0);
    Switched { words: out.len() }
}

// The sixth stage, key switching: words under f become words under s. Products are added modulo M, and rounded nowhere.
pub fn switch(
    set: &Set,
    words: &mut [u32],
    out: &mut [u32],
    rows: &[u32],
    token: Narrowed,
) -> Result<Switched, Declined<Narrowed>>
    ensures answer { result ≡ staged (switch_refused set.now.within.numbers (length words.entry.now) (length out.old) (length rows.now)) (record { words = words_of set.now.within.numbers }) token }
    ensures words { words.new ≡ spent result words.old }
    ensures out { out.new ≡ wrote result (switched_of set.now.within.numbers rows.now words.old) out.old }
{
    let token = Declined::unless(
        check_lengths(&[
            (words.len(), set.sample_words()),
            (out.len(), set.cipher_words()),
            (rows.len(), set.row_words()),
        ]),
        token,
    )?;
    Ok(switch_right(set, words, out, rows, token))
}
