ghost use Rattle.std.specs.Prelude.{◌≡◌, IfOk, IfErr};

use faults::fault::Fault;

// What a stage hands to the next one, which uses it up: how many words it wrote.
// The words lie in memory that is lent at each call.
// Kept: six types of one number, as the project wants plain values that are moved, so that no stage is left out or done twice.

// Two ciphertexts combined; spent by `start`.
pub struct Combined {
    words: usize,
}

// The first accumulator; spent by `sweep`.
pub struct Started {
    words: usize,
}

// The accumulator after the sweep; spent by `extract`.
pub struct Swept {
    words: usize,
}

// The sample extracted from it; spent by `narrow`.
pub struct Extracted {
    words: usize,
}

// The sample rounded to M; spent by `switch`.
pub struct Narrowed {
    words: usize,
}

// The sample under the small secret; spent by `finish`.
pub struct Switched {
    words: usize,
}

// A stage that refused: why, and what it was handed, which can be used again.
pub struct Declined<T> {
    pub fault: Fault,
    pub token: T,
}

impl<T> Declined<T> {
    // The token, unless its stage refuses the lists.
    fn unless(checked: Result<(), Fault>, token: T) -> Result<T, Declined<T>>
        ensures accepts { IfOk result (λ t. (t ≡ token) × (checked ≡ Ok tt)) }
        ensures declines { IfErr result (λ d. (d.token ≡ token) × (checked ≡ Err d.fault)) }
    {
        match checked {
            Ok(()) => Ok(token),
            Err(fault) => Err(Declined { fault, token }),
        }
    }
}

pub mod combine;
pub mod extract;
pub mod finish;
pub mod narrow;
pub mod start;
pub mod sweep;
pub mod switch;
