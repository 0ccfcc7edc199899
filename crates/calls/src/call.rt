use gate::letter::Letter;

// How many words of small memory, work memory and scratch a call is handed.
#[derive(Clone, Copy, PartialEq, Eq, Debug)]
pub struct Lent {
    pub small: u32,
    pub work: u32,
    pub scratch: u32,
}

// A call on a register file, with all that it is handed but keys and register memory.
#[derive(Clone, Copy, PartialEq, Eq, Debug)]
pub enum Call<'a> {
    Place {
        z: u32,
        words: &'a [u16],
    },
    Read {
        x: u32,
        len: u32,
    },
    Gate {
        letter: Letter,
        x: u32,
        y: u32,
        z: u32,
        lent: Lent,
    },
    Invert {
        x: u32,
        z: u32,
    },
    Copy {
        x: u32,
        z: u32,
    },
    Clear {
        z: u32,
    },
    Orders {
        orders: &'a [u8],
        lent: Lent,
    },
}
