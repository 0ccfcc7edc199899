use crate::answer::{self, Failure};
use crate::numbers::words;
use faults::fault::Fault;
use std::alloc::Global;
use words::gadget::Gadget;
use words::modulus::Modulus;
use words::rounding::rounded;

// The gadget of an odd modulus, or of a power of two.
fn gadget(modulus: u32, dropped: u32, base: u32, digits: u32) -> Result<Gadget, Fault> {
    if modulus % 2 == 1 {
        Gadget::of_ring(modulus, dropped, base, digits)
    } else {
        Gadget::of_switch(modulus, base, digits)
    }
}

// digits R P B d word
pub fn digits(heap: Global, all: &[i64]) -> Result<String, Failure> {
    let [modulus, dropped, base, count, word] = words::<5>(all)?;
    if modulus % 2 == 0 && dropped != 1 {
        return Err(Failure::Unknown);
    }
    let gadget = gadget(modulus, dropped, base, count)?;
    let mut digits = vec![in heap; 0i64; gadget.digits as usize]?;
    gadget.split(word, &mut digits)?;
    answer::list(heap, &digits)
}

// A gadget with this base, whose other numbers are right.
fn with_base(base: u32) -> Result<Gadget, Fault> {
    let digits = if base < 8 { 6 } else { 2 };
    Gadget::of_ring(17, 1, base, digits)
}

// step u B
pub fn step(heap: Global, all: &[i64]) -> Result<String, Failure> {
    let &[number, base] = all else {
        return Err(Failure::Unknown);
    };
    let gadget = with_base(u32::try_from(base)?)?;
    let (digit, rest) = gadget.step(number);
    Ok(format!(in heap; "ok {digit} {rest}")?)
}

// round R R' c
pub fn round(heap: Global, all: &[i64]) -> Result<String, Failure> {
    let [from, to, word] = words::<3>(all)?;
    let from = Modulus::checked(from)?;
    let to = Modulus::checked(to)?;
    let word = rounded(word, &from, &to);
    Ok(format!(in heap; "ok {word}")?)
}
