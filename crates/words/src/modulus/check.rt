ghost use Rattle.std.specs.Prelude.{◌≡◌, ℕ, ◌^◌, ◌<◌, ◌≤◌, Bool, IfOk};
ghost use Rattle.faults.specs.Least.{Least, refusal};
ghost use Rattle.words.specs.Powers.{log2, is_power, power_within, within};
ghost use Rattle.words.specs.Moduli.{ring_modulus, switch_modulus, modulus_broken, WrongModulus};

use super::Modulus;
use faults::fault::Fault;

// The base-2 logarithm, rounded down; 0 for 0.
pub fn log_of(x: u32) -> u32
    ensures same { result ≡ log2 x }
    ensures few { result < 32 }
{
    x.checked_ilog2().unwrap_or(0)
}

// Whether a number is a power of two.
pub fn is_power(x: u32) -> bool
    ensures { result ≡ is_power x }
{
    x.is_power_of_two()
}

// Whether a number lies from `low` to `high`.
pub fn in_range(low: u32, high: u32, x: u32) -> bool
    ensures { result ≡ within low high x }
{
    (low..=high).contains(&x)
}

// Whether a number is a power of two from `low` to `high`.
pub fn power_in_range(low: u32, high: u32, x: u32) -> bool
    ensures { result ≡ power_within low high x }
{
    is_power(x) && in_range(low, high, x)
}

// Whether a number is odd and a modulus of a ring.
pub fn is_ring(x: u32) -> bool
    ensures { result ≡ ring_modulus x }
{
    x % 2 == 1 && in_range(17, 0x7fff_ffff, x)
}

// Whether a number is a power of two of the switch.
pub fn is_switch(x: u32) -> bool
    ensures { result ≡ switch_modulus x }
{
    power_in_range(32, 0x10_0000, x)
}

impl Modulus {
    // A modulus alone: odd as that of a ring, or a power of two of the switch.
    #[tactic(auto, using(crate::proofs::Moduli::least_modulus))]
    pub fn checked(x: u32) -> Result<Modulus, Fault>
        ensures answer { refusal result ≡ modulus_broken x }
        ensures made { IfOk result (λ m. m.value ≡ x) }
        ensures least { Least (WrongModulus x) (modulus_broken x) }
    {
        if x % 2 == 1 {
            if x < 17 || x > 0x7fff_ffff {
                return Err(Fault::Field { field: 3 });
            }
        } else if !is_switch(x) {
            return Err(Fault::Field { field: 11 });
        }
        Ok(Modulus { value: x })
    }

    // Its value.
    pub fn get(&self) -> u32
        ensures value { result ≡ self.now.value }
        ensures low { 17 ≤ result }
        ensures high { result < 2 ^ 31 }
    {
        self.value
    }
}
