ghost use Rattle.std.specs.Prelude.{◌≡◌, length, replicate};
ghost use Rattle.gate.specs.Lengths.{staged, wrote, spent, sample_of, extract_refused};
ghost use Rattle.gate.specs.Stages.{extracted_of};

use super::{Declined, Extracted, Swept};
use crate::lengths::check_lengths;
use crate::vectors::extract_words;
use set::checked::Set;

// The same, of lists that have their lengths.
pub(crate) fn extract_right(set: &Set, acc: &mut [u32], out: &mut [u32], token: Swept) -> Extracted
    requires acc { length acc.old ≡ set.now.within.numbers.degree }
    requires out { length out.old ≡ sample_of set.now.within.numbers }
    ensures token { result.words ≡ sample_of set.now.within.numbers }
    ensures acc { acc.new ≡ replicate (length acc.old) 0 }
    ensures out { out.new ≡ extracted_of set.now.within.numbers acc.old }
{
    let Swept { words: _ } = token;
    extract_words(set.degree(), set.wide(), acc, out);
    acc.fill(0);
    Extracted { words: out.len() }
}

// The fourth stage, sample extraction: N words become N + 1 whose phase under f is δ more than the constant coefficient.
pub fn extract(
    set: &Set,
    acc: &mut [u32],
    out: &mut [u32],
    token: Swept,
) -> Result<Extracted, Declined<Swept>>
    ensures answer { result ≡ staged (extract_refused set.now.within.numbers (length acc.old) (length out.old)) (record { words = sample_of set.now.within.numbers }) token }
    ensures acc { acc.new ≡ spent result acc.old }
    ensures out { out.new ≡ wrote result (extracted_of set.now.within.numbers acc.old) out.old }
{
    let token = Declined::unless(
        check_lengths(&[(acc.len(), set.degree()), (out.len(), set.sample_words())]),
        token,
    )?;
    Ok(extract_right(set, acc, out, token))
}
