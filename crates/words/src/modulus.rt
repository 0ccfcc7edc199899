ghost use Rattle.std.specs.Prelude.{ℕ, ◌^◌, ◌<◌, ◌≤◌};

// A modulus of words: odd and of a ring, or a power of two of the switch.
#[derive(Clone, Copy)]
pub struct Modulus {
    pub value: u32,
    ghost low: { 17 ≤ value },
    ghost high: { value < 2 ^ 31 },
}

pub mod check;
