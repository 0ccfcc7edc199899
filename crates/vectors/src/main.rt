// The comparison program: answers questions, a line each, by the library.
#![tactic(auto)]

mod answer;
mod digits;
mod numbers;
mod rings_alone;
mod sets;

use answer::Failure;
use rings::ring::Ring;
use std::alloc::Global;
use std::io::{BufRead, BufReader};

// The ring in force.
fn in_force(ring: &Option<Ring>) -> Result<&Ring, Failure> {
    ring.as_ref().ok_or(Failure::Unknown)
}

// A ring that is accepted comes into force.
// Apart from reply: a function pays at entry for the size of its locals, and a ring has tables of 40 KiB.
fn renew(ring: &mut Option<Ring>, numbers: &[i64]) -> Result<(), Failure> {
    *ring = Some(rings_alone::ring(numbers)?);
    Ok(())
}

// The answer to a question.
fn reply(heap: Global, ring: &mut Option<Ring>, line: &str) -> Result<String, Failure> {
    let (word, rest) = line.split_once(' ').unwrap_or((line, ""));
    let numbers = numbers::read(heap, rest)?;
    match word {
        "digits" => digits::digits(heap, &numbers),
        "step" => digits::step(heap, &numbers),
        "round" => digits::round(heap, &numbers),
        "set" => sets::set(heap, &numbers),
        "ring" => {
            renew(ring, &numbers)?;
            Ok(String::from_str(heap, "ok")?)
        }
        "product" => rings_alone::product(heap, in_force(ring)?, &numbers),
        "fold" => rings_alone::fold(heap, in_force(ring)?, &numbers),
        "values" => rings_alone::values(heap, in_force(ring)?, &numbers),
        "polynomial" => rings_alone::polynomial(heap, in_force(ring)?, &numbers),
        _ => Err(Failure::Unknown),
    }
}

fn main(rt: HostRuntime) -> anyhow::Result<()> {
    let heap = rt.alloc();
    let mut ring = None;
    for line in BufReader::new(heap, rt.stdin())?.lines(heap) {
        let line = line?;
        match reply(heap, &mut ring, line.as_str()) {
            Ok(answer) => println!(rt; "{line} = {answer}")?,
            Err(Failure::Memory(error)) => return Err(error.into()),
            Err(failure) => println!(rt; "{line} = {failure}")?,
        }
    }
    Ok(())
}
