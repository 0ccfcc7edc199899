use crate::answer::Failure;
use crate::numbers::words;
use set::numbers::Numbers;
use set::steps::Steps;
use set::{check, noises};
use std::alloc::Global;

// Sixteen words as the numbers of a set, in their order.
fn numbers_of(words: [u32; 16]) -> Numbers {
    let [
        degree,
        dimension,
        small,
        modulus,
        root,
        dropped,
        base,
        digits,
        noise,
        weight,
        ones,
        switch,
        radix,
        places,
        jitter,
        bound,
    ] = words;
    Numbers {
        degree,
        dimension,
        small,
        modulus,
        root,
        dropped,
        base,
        digits,
        noise,
        weight,
        ones,
        switch,
        radix,
        places,
        jitter,
        bound,
    }
}

// set SWEEP and sixteen numbers: stated noise, V and W of the checked set
pub fn set(heap: Global, all: &[i64]) -> Result<String, Failure> {
    let (sweep, rest) = all.split_first().ok_or(Failure::Unknown)?;
    let numbers = numbers_of(words(rest)?);
    let steps = match sweep {
        1 => Steps::Single,
        2 => Steps::Paired,
        _ => return Err(Failure::Unknown),
    };
    let set = check::set_for(numbers, steps)?;
    let stated = set.stated;
    let swept = noises::swept(&set.within, stated);
    let switched = noises::switched(&set.within);
    Ok(format!(in heap; "ok {stated} {swept} {switched}")?)
}
