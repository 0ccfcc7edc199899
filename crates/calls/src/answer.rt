ghost use Rattle.std.specs.Prelude.{◌≡◌};
ghost use Rattle.faults.specs.Least.{refusal};
ghost use Rattle.calls.specs.Answers.{verdict};

use faults::fault::Fault;

// What a list of orders answers: how many ran, and what stopped it before its end.
#[derive(Clone, Copy, PartialEq, Eq, Debug)]
pub struct Ran {
    pub orders: usize,
    pub stop: Option<Fault>,
}

// The answer to a call.
#[derive(Clone, Copy, PartialEq, Eq, Debug)]
pub enum Answer {
    Accepted,
    Refused(Fault),
    Ran(Ran),
}

// Accepted, or why not.
impl From<Result<(), Fault>> for Answer {
    ghost from_gives = { λ r a. a ≡ verdict (refusal r) };

    fn from(answer: Result<(), Fault>) -> Answer {
        match answer {
            Ok(()) => Answer::Accepted,
            Err(fault) => Answer::Refused(fault),
        }
    }
}
