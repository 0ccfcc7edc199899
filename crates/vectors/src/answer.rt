ghost use Rattle.vectors.specs.Texts.{failure_text};

use faults::fault::Fault;
use std::alloc::{AllocError, Global};
use std::error::Error;
use std::fmt;
use std::num::{ParseIntError, TryFromIntError};

// Why a question has no `ok`, or none at all for want of memory.
#[derive(Debug, Drop)]
pub enum Failure {
    Unknown,
    Refused(Fault),
    KernelsDiffer,
    Memory(AllocError),
}

impl fmt::Display for Failure {
    ghost output = { failure_text };

    fn fmt<W: fmt::Write>(&self, f: &mut fmt::Formatter<W>) -> fmt::Result {
        match self {
            Failure::Unknown => f.write_str("unknown"),
            Failure::Refused(fault) => write!(f, "{fault}"),
            Failure::KernelsDiffer => f.write_str("kernels differ"),
            Failure::Memory(error) => write!(f, "{error}"),
        }
    }
}

impl Error for Failure {}

// Kept: From by hand, four lines each, for thiserror would be one library more that is trusted.
impl From<Fault> for Failure {
    fn from(fault: Fault) -> Failure {
        Failure::Refused(fault)
    }
}

impl From<AllocError> for Failure {
    fn from(error: AllocError) -> Failure {
        Failure::Memory(error)
    }
}

// A text that is no number.
impl From<ParseIntError> for Failure {
    fn from(_error: ParseIntError) -> Failure {
        Failure::Unknown
    }
}

// A number that its type cannot hold.
impl From<TryFromIntError> for Failure {
    fn from(_error: TryFromIntError) -> Failure {
        Failure::Unknown
    }
}

// `ok` and what a list holds.
pub fn list<T: fmt::Display>(heap: Global, items: &[T]) -> Result<String, Failure> {
    let mut text = String::from_str(heap, "ok")?;
    for item in items {
        write!(text, " {item}")?;
    }
    Ok(text)
}
