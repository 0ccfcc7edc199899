ghost use Rattle.std.specs.Prelude.{◌≡◌, Some};
ghost use Rattle.faults.specs.Causes.{number_of, place_of, layer_of};
ghost use Rattle.faults.specs.Least.{refusal, told, unless};
ghost use Rattle.faults.specs.Texts.{layer_text, place_text, fault_text};

use std::error::Error;
use std::fmt;

// The part of the engine in which a fault began.
#[derive(Clone, Copy, PartialEq, Eq, Debug)]
pub enum Layer {
    Image,
    Set,
    Digits,
    Kernel,
    Sweep,
    Gate,
    File,
    Runner,
    Runs,
    Secrets,
}

// Where a fault lies: one number, or an entry of a list.
#[derive(Clone, Copy, PartialEq, Eq, Debug)]
pub enum Place {
    At(u64),
    Entry(u64, u64),
}

// Why a call is refused, with what tells the place.
#[derive(Clone, Copy, PartialEq, Eq, Debug)]
pub enum Fault {
    // the directory of an image, a gap or the set part
    Directory { pair: u32 },
    // a number of the set outside its limits
    Field { field: u32 },
    // digits that do not cover their modulus
    Cover { field: u32 },
    // ψ^N does not leave Q - 1
    Root,
    // the noise of a gate does not close
    Closing { condition: u32 },
    // the length of another part of an image
    PartLength { pair: u32 },
    // a list that has not the call's length
    Length { list: u32, part: Layer },
    // a word of an image that is not below its modulus
    ImageWord { offset: u64 },
    // an order broken off, with an unknown letter, or with an unused number that is not 0
    Order { order: u64 },
    // a register that is not below R, or R itself
    Register { register: u32 },
    // a register that is empty
    Empty { register: u32 },
    // a ciphertext word that is not below q
    CipherWord { word: u32, part: Layer },
    // an entry or the weight of a secret
    Secret { list: u32, entry: u64 },
    // f × f' is not 1
    Inverse { coefficient: u32 },
    // a random word or a noise outside its bound
    Sample { list: u32, entry: u64 },
    // a phase that opens to no bit
    Phase { phase: u32 },
}

impl Fault {
    // The number of the cause.
    pub fn number(self) -> u8
        ensures { result ≡ number_of self }
    {
        match self {
            Fault::Directory { .. } => 1,
            Fault::Field { .. } => 2,
            Fault::Cover { .. } => 3,
            Fault::Root => 4,
            Fault::Closing { .. } => 5,
            Fault::PartLength { .. } => 6,
            Fault::Length { .. } => 7,
            Fault::ImageWord { .. } => 8,
            Fault::Order { .. } => 9,
            Fault::Register { .. } => 10,
            Fault::Empty { .. } => 11,
            Fault::CipherWord { .. } => 12,
            Fault::Secret { .. } => 13,
            Fault::Inverse { .. } => 14,
            Fault::Sample { .. } => 15,
            Fault::Phase { .. } => 16,
        }
    }

    // Refused with this fault, unless a test passes.
    pub fn unless(self, passes: bool) -> Result<(), Fault>
        ensures answer { result ≡ told (unless passes self) }
        ensures refused { refusal result ≡ unless passes self }
    {
        if passes { Ok(()) } else { Err(self) }
    }

    // Where the fault lies.
    pub fn place(self) -> Place
        ensures { result ≡ place_of self }
    {
        match self {
            Fault::Directory { pair } => Place::At(pair as u64),
            Fault::Field { field } => Place::At(field as u64),
            Fault::Cover { field } => Place::At(field as u64),
            Fault::Root => Place::At(4),
            Fault::Closing { condition } => Place::At(condition as u64),
            Fault::PartLength { pair } => Place::At(pair as u64),
            Fault::Length { list, .. } => Place::At(list as u64),
            Fault::ImageWord { offset } => Place::At(offset),
            Fault::Order { order } => Place::At(order),
            Fault::Register { register } => Place::At(register as u64),
            Fault::Empty { register } => Place::At(register as u64),
            Fault::CipherWord { word, .. } => Place::At(word as u64),
            Fault::Secret { list, entry } => Place::Entry(list as u64, entry),
            Fault::Inverse { coefficient } => Place::At(coefficient as u64),
            Fault::Sample { list, entry } => Place::Entry(list as u64, entry),
            Fault::Phase { phase } => Place::At(phase as u64),
        }
    }

    // The layer in which the fault began.
    pub fn layer(self) -> Layer
        ensures { result ≡ layer_of self }
    {
        match self {
            Fault::Directory { .. } => Layer::Image,
            Fault::Field { .. } => Layer::Set,
            Fault::Cover { .. } => Layer::Set,
            Fault::Root => Layer::Set,
            Fault::Closing { .. } => Layer::Set,
            Fault::PartLength { .. } => Layer::Image,
            Fault::Length { part, .. } => part,
            Fault::ImageWord { .. } => Layer::Image,
            Fault::Order { .. } => Layer::Runner,
            Fault::Register { .. } => Layer::File,
            Fault::Empty { .. } => Layer::File,
            Fault::CipherWord { part, .. } => part,
            Fault::Secret { .. } => Layer::Secrets,
            Fault::Inverse { .. } => Layer::Secrets,
            Fault::Sample { .. } => Layer::Secrets,
            Fault::Phase { .. } => Layer::Secrets,
        }
    }
}

impl fmt::Display for Layer {
    ghost output = { λ layer. Some (layer_text layer) };

    fn fmt<W: fmt::Write>(&self, f: &mut fmt::Formatter<W>) -> fmt::Result {
        f.write_str(match self {
            Layer::Image => "image",
            Layer::Set => "set",
            Layer::Digits => "digits",
            Layer::Kernel => "kernel",
            Layer::Sweep => "sweep",
            Layer::Gate => "gate",
            Layer::File => "file",
            Layer::Runner => "runner",
            Layer::Runs => "runs",
            Layer::Secrets => "secrets",
        })
    }
}

impl fmt::Display for Place {
    ghost output = { λ place. Some (place_text place) };

    fn fmt<W: fmt::Write>(&self, f: &mut fmt::Formatter<W>) -> fmt::Result {
        match self {
            Place::At(place) => write!(f, "{place}"),
            Place::Entry(list, entry) => write!(f, "{list},{entry}"),
        }
    }
}

// Cause, place and layer.
impl fmt::Display for Fault {
    ghost output = { λ fault. Some (fault_text fault) };

    fn fmt<W: fmt::Write>(&self, f: &mut fmt::Formatter<W>) -> fmt::Result {
        let (number, place, layer) = (self.number(), self.place(), self.layer());
        write!(f, "fault {number} {place} {layer}")
    }
}

impl Error for Fault {}
