ghost use Rattle.std.specs.Prelude.{◌≡◌, ℕ, ◌^◌, ◌<◌, ◌≤◌, true, IfOk};
ghost use Rattle.faults.specs.declared.fault.Fault.TheVariants.{Field, Cover};
ghost use Rattle.faults.specs.Least.{Least, refusal, unless};
ghost use Rattle.words.specs.Gadgets.{covers, ring_gadget_broken, switch_gadget_broken, WrongRingGadget, WrongSwitchGadget};
ghost use Rattle.words.specs.Gadgets.{Splits};
ghost use Rattle.words.specs.Powers.{power_within, within};

use super::Gadget;
use crate::modulus::Modulus;
use crate::modulus::check::{in_range, is_ring, is_switch, log_of, power_in_range};
use faults::fault::Fault;

// The logarithm of a power of two from `low` to `high`, asked as this field.
fn log_within(field: u32, low: u32, high: u32, x: u32) -> Result<u32, Fault>
    requires few { high ≤ 65536 }
    ensures answer { refusal result ≡ unless (power_within low high x) (Field field) }
    ensures power { IfOk result (λ k. 2 ^ k ≡ x) }
    ensures few { IfOk result (λ k. k ≤ 16) }
    ensures some { 2 ≤ low → IfOk result (λ k. 1 ≤ k) }
{
    if !power_in_range(low, high, x) {
        return Err(Fault::Field { field });
    }
    Ok(log_of(x))
}

// The gadget of numbers that are right, if its digits reach: R ≤ 2^shift × 2^(width × digits) ≤ 2^40.
// If not, the field that counts the digits is refused.
fn covering(field: u32, modulus: u32, shift: u32, width: u32, digits: u32) -> Result<Gadget, Fault>
    requires low { 17 ≤ modulus }
    requires high { modulus < 2 ^ 31 }
    requires part { shift ≤ 16 }
    requires base { (1 ≤ width) × (width ≤ 16) }
    requires count { within 1 31 digits ≡ true }
    ensures answer { refusal result ≡ unless (covers modulus (2 ^ shift) (2 ^ width) digits) (Cover field) }
    ensures made { IfOk result (λ g. (g.modulus.value ≡ modulus) × (g.shift ≡ shift) × (g.width ≡ width) × (g.digits ≡ digits)) }
{
    let total = shift + width * digits;
    if total > 40 || modulus as u64 > 1u64 << total {
        return Err(Fault::Cover { field });
    }
    Ok(Gadget {
        modulus: Modulus { value: modulus },
        shift,
        width,
        digits,
    })
}

impl Gadget {
    // The gadget of a ring, from Q, P, B and d.
    #[tactic(auto, using(crate::proofs::Gadgets::ring_gadget_least))]
    pub fn of_ring(modulus: u32, dropped: u32, base: u32, digits: u32) -> Result<Gadget, Fault>
        ensures answer { refusal result ≡ ring_gadget_broken modulus dropped base digits }
        ensures made { IfOk result (λ g. Splits modulus dropped base digits g.modulus.value g.shift g.width g.digits) }
        ensures least { Least (WrongRingGadget modulus dropped base digits) (ring_gadget_broken modulus dropped base digits) }
    {
        if !is_ring(modulus) {
            return Err(Fault::Field { field: 3 });
        }
        let shift = log_within(5, 1, 65536, dropped)?;
        let width = log_within(6, 2, 65536, base)?;
        if !in_range(1, 31, digits) {
            return Err(Fault::Field { field: 7 });
        }
        covering(7, modulus, shift, width, digits)
    }

    // The gadget of the switch, from M, C and k: exact, since nothing is dropped.
    #[tactic(auto, using(crate::proofs::Gadgets::switch_gadget_least))]
    pub fn of_switch(modulus: u32, radix: u32, places: u32) -> Result<Gadget, Fault>
        ensures answer { refusal result ≡ switch_gadget_broken modulus radix places }
        ensures made { IfOk result (λ g. Splits modulus 1 radix places g.modulus.value g.shift g.width g.digits) }
        ensures least { Least (WrongSwitchGadget modulus radix places) (switch_gadget_broken modulus radix places) }
    {
        if !is_switch(modulus) {
            return Err(Fault::Field { field: 11 });
        }
        let width = log_within(12, 2, 1024, radix)?;
        if !in_range(1, 20, places) {
            return Err(Fault::Field { field: 13 });
        }
        covering(13, modulus, 0, width, places)
    }
}
