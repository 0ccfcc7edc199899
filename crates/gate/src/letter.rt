ghost use Rattle.std.specs.Prelude.{◌≡◌, ℕ, ◌≤◌};
ghost use Rattle.std.specs.Option.{ok_or};
ghost use Rattle.gate.specs.Letters.{letter_of, offset_of, times_of, bit_of, BitsRight};

// The gate to compute.
#[derive(Clone, Copy, PartialEq, Eq, Debug)]
pub enum Letter {
    Nand,
    And,
    Or,
    Nor,
    Xor,
    Xnor,
}

// A character that names no gate.
#[derive(Clone, Copy, PartialEq, Eq, Debug)]
pub struct NotALetter(pub char);

// The gate of a letter, where it is one of the six.
impl TryFrom<char> for Letter {
    type Error = NotALetter;

    ghost try_from_gives = { λ c r. r ≡ ok_or (letter_of c) (record { 0 = c }) };

    fn try_from(letter: char) -> Result<Self, NotALetter> {
        match letter {
            'N' => Ok(Letter::Nand),
            'A' => Ok(Letter::And),
            'O' => Ok(Letter::Or),
            'R' => Ok(Letter::Nor),
            'X' => Ok(Letter::Xor),
            'E' => Ok(Letter::Xnor),
            _ => Err(NotALetter(letter)),
        }
    }
}

impl Letter {
    // o: how many eighths of q are added.
    pub fn offset(self) -> u32
        ensures value { result ≡ offset_of self }
        ensures few { result ≤ 7 }
    {
        match self {
            Letter::Nand => 5,
            Letter::And => 1,
            Letter::Or => 7,
            Letter::Nor => 3,
            Letter::Xor => 0,
            Letter::Xnor => 4,
        }
    }

    // t: how many times both words are subtracted.
    pub fn times(self) -> u32
        ensures value { result ≡ times_of self }
        ensures few { result ≤ 2 }
    {
        match self {
            Letter::Nand => 1,
            Letter::And => 1,
            Letter::Or => 1,
            Letter::Nor => 1,
            Letter::Xor => 2,
            Letter::Xnor => 2,
        }
    }

    // The gate of two plain bits.
    pub fn bit(self, a: bool, b: bool) -> bool
        ensures { result ≡ bit_of self a b }
    {
        match self {
            Letter::Nand => !(a && b),
            Letter::And => a && b,
            Letter::Or => a || b,
            Letter::Nor => !(a || b),
            Letter::Xor => a != b,
            Letter::Xnor => a == b,
        }
    }
}

// The bit of a gate is the half of the circle on which its offsets put the phase.
pub fn letters_are_right() -> u8
    ensures { BitsRight }
{
    0
}
