use crate::forms::turn_all;
use crate::generator::Generator;
use crate::maker::{KeyMemory, make_keys, sample_counts};
use crate::seal::{open, seal};
use crate::toy::{SECRETS, TOY};
use faults::fault::Fault;
use gate::bootstrap::gate;
use gate::letter::{Letter, NotALetter};
use gate::sizes::gate_words;
use set::checked::Set;
use std::alloc::{AllocError, Global};
use std::io;
use sweeps::check::check_for;
use sweeps::paired::Paired;
use sweeps::sweep::Sweep;
use transform::transform::Transform;

// What ends the program early.
// Kept: From by hand, four lines each, for thiserror would be one library more that is trusted.
#[derive(Debug, Drop)]
pub enum Failure {
    Refused(Fault),
    Memory(AllocError),
    Output(io::Error),
    NoGate(NotALetter),
}

impl From<Fault> for Failure {
    fn from(fault: Fault) -> Failure {
        Failure::Refused(fault)
    }
}

impl From<AllocError> for Failure {
    fn from(error: AllocError) -> Failure {
        Failure::Memory(error)
    }
}

impl From<io::Error> for Failure {
    fn from(error: io::Error) -> Failure {
        Failure::Output(error)
    }
}

impl From<NotALetter> for Failure {
    fn from(error: NotALetter) -> Failure {
        Failure::NoGate(error)
    }
}

// What seals bits of the toy set, with memory for random words.
#[derive(Drop)]
struct Sealer {
    generator: Generator,
    randoms: Vec<i32>,
}

impl Sealer {
    // A ciphertext of a bit, of fresh random words and noise.
    fn seal(&mut self, set: &Set, bit: bool, out: &mut [u16]) -> Result<(), Fault> {
        self.generator.fill_below(TOY.small, &mut self.randoms);
        let noise = self.generator.within(TOY.bound);
        seal(set, bit, SECRETS.s, &self.randoms, noise, out)
    }
}

// The memory that a gate is lent.
#[derive(Drop)]
struct Room {
    small: Vec<u16>,
    work: Vec<u32>,
    scratch: Vec<u32>,
}

// A set with its keys, two ciphertexts and their gate, and the memory that a gate is lent.
#[derive(Drop)]
pub struct World {
    set: Set,
    sealer: Sealer,
    keys: KeyMemory,
    x: Vec<u16>,
    y: Vec<u16>,
    out: Vec<u16>,
    room: Room,
}

impl World {
    // The toy set, and keys from the generator's samples.
    pub fn new(heap: Global) -> Result<World, Failure> {
        let set = check_for::<Paired>(TOY)?;
        let mut world = World::empty(heap, set)?;
        world.make(heap)?;
        Ok(world)
    }

    // Memory of the lengths that the set asks for, all zeros.
    fn empty(heap: Global, set: Set) -> Result<World, AllocError> {
        let n = set.degree();
        let ciphertext = set.cipher_words();
        let work = gate_words(&set);
        let randoms = set.dimension();
        let keys = KeyMemory::new::<Paired>(heap, &set)?;
        Ok(World {
            set,
            sealer: Sealer {
                generator: Generator::new(),
                randoms: vec![in heap; 0; randoms]?,
            },
            keys,
            x: vec![in heap; 0; ciphertext]?,
            y: vec![in heap; 0; ciphertext]?,
            out: vec![in heap; 0; ciphertext]?,
            room: Room {
                small: vec![in heap; 0; ciphertext]?,
                work: vec![in heap; 0; work]?,
                scratch: vec![in heap; 0; n]?,
            },
        })
    }

    // Makes the keys, and turns their polynomials into forms.
    fn make(&mut self, heap: Global) -> Result<(), Failure> {
        let (noises, rows) = sample_counts::<Paired>(&self.set);
        let mut samples = vec![in heap; 0i32; noises + rows]?;
        let (noises, rows) = samples.split_at_mut(noises);
        let generator = &mut self.sealer.generator;
        generator.fill_within(TOY.noise, noises);
        generator.fill_rows(&TOY, rows);
        let mut noise = vec![in heap; 0u32; self.set.degree()]?;
        make_keys::<Paired>(
            &self.set,
            SECRETS,
            &samples,
            &mut self.keys,
            &mut noise,
            &mut self.room.scratch,
        )?;
        let ring = self.set.ring();
        let scratch = &mut self.room.scratch;
        turn_all(&Transform, ring, &mut self.keys.start, scratch)?;
        turn_all(&Transform, ring, &mut self.keys.selectors, scratch)?;
        Ok(())
    }

    // Seals two bits, computes their gate and opens the result.
    pub fn opened(&mut self, letter: Letter, x: bool, y: bool) -> Result<bool, Fault> {
        self.sealer.seal(&self.set, x, &mut self.x)?;
        self.sealer.seal(&self.set, y, &mut self.y)?;
        gate(
            &Transform,
            &Paired,
            &self.set,
            letter,
            &self.x,
            &self.y,
            &mut self.out,
            self.keys.lend(),
            &mut self.room.small,
            &mut self.room.work,
            &mut self.room.scratch,
        )?;
        open(&self.set, &self.out, SECRETS.s)
    }
}
