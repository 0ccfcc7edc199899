ghost use Rattle.std.specs.Prelude.{◌≡◌, ◌^◌, ◌<◌, not, length, position, IsOk, IfSome, ◌==◌};
ghost use Rattle.faults.specs.Least.{refusal, told, unless};
ghost use Rattle.faults.specs.Lengths.{wrong_from, RightLengths};

use crate::fault::{Fault, Layer};

// A list of a call has the length that is wanted.
pub fn check_length(part: Layer, list: u32, have: usize, want: usize) -> Result<(), Fault>
    ensures { result ≡ told (unless (have == want) (Fault.Length list part)) }
{
    Fault::Length { list, part }.unless(have == want)
}

// The first list that has not its right length; each list is told by its length and the right one.
fn first_wrong(lists: &[(usize, usize)]) -> Option<usize>
    ensures first { result ≡ position (λ l. not (l.0 == l.1)) lists.now }
    ensures within { IfSome result (λ i. i < length lists.now) }
{
    lists.iter().position(|list| list.0 != list.1)
}

// Refuses the first list that has not its right length.
pub fn check_lengths(part: Layer, lists: &[(usize, usize)]) -> Result<(), Fault>
    ensures answer { length lists.now < 2 ^ 32 → refusal result ≡ wrong_from part 0 lists.now }
    ensures fits { IsOk result → RightLengths lists.now }
{
    match first_wrong(lists) {
        Some(list) => Err(Fault::Length {
            list: u32::try_from(list).unwrap_or(u32::MAX),
            part,
        }),
        None => Ok(()),
    }
}
