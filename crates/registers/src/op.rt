use gate::letter::Letter;

// An operation on registers, by their numbers alone.
#[derive(Clone, Copy, PartialEq, Eq, Debug)]
pub enum Op {
    // the gate of x and y, to z
    Gate {
        letter: Letter,
        x: u32,
        y: u32,
        z: u32,
    },
    // the opposite bit of x, to z
    Invert {
        x: u32,
        z: u32,
    },
    // x, to z
    Copy {
        x: u32,
        z: u32,
    },
    // the mark of z taken off
    Clear {
        z: u32,
    },
}
