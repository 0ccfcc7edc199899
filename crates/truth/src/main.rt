#![tactic(auto)]

mod forms;
mod generator;
mod lengths;
mod maker;
mod modular;
mod seal;
mod secrets;
mod toy;
mod world;

use crate::world::{Failure, World};
use gate::letter::Letter;

// Prints for each gate its letter and what it gives on 00, 01, 10 and 11, all of it computed under encryption.
fn main(rt: HostRuntime) -> Result<(), Failure> {
    let mut world = World::new(rt.alloc())?;
    for name in ['N', 'A', 'O', 'R', 'X', 'E'] {
        let letter = Letter::try_from(name)?;
        let a = world.opened(letter, false, false)? as u8;
        let b = world.opened(letter, false, true)? as u8;
        let c = world.opened(letter, true, false)? as u8;
        let d = world.opened(letter, true, true)? as u8;
        println!(rt; "{name} {a}{b}{c}{d}")?;
    }
    Ok(())
}
