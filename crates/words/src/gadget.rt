ghost use Rattle.std.specs.Prelude.{◌≡◌, ℕ, ◌*◌, ◌^◌, ◌<◌, ◌≤◌};

use crate::modulus::Modulus;

// A gadget: words of a modulus R are split into `digits` digits in base B = 2^width,
// without the dropped part P = 2^shift. The digits cover the modulus.
#[derive(Clone, Copy)]
pub struct Gadget {
    pub modulus: Modulus,
    pub shift: u32,
    pub width: u32,
    pub digits: u32,
    ghost part: { shift ≤ 16 },
    ghost base: { (1 ≤ width) × (width ≤ 16) },
    ghost count: { (1 ≤ digits) × (digits ≤ 31) },
    ghost reach: { modulus.value ≤ 2 ^ shift * (2 ^ width) ^ digits },
    ghost room: { 2 ^ shift * (2 ^ width) ^ digits ≤ 2 ^ 40 },
}

pub mod check;
pub mod split;
