ghost use Rattle.std.specs.Prelude.{◌≡◌, ℕ, ◌^◌, ◌<◌, ◌≤◌, Bool, IfOk};
ghost use Rattle.faults.specs.Least.{Least, refusal, unless};
ghost use Rattle.set.specs.Noise.{stated_noise};
ghost use Rattle.set.specs.Rules.{rules_broken, set_broken, LimitsTold, RulesTold, WrongRules, WrongSet};
ghost use Rattle.set.specs.Limits.{even_within, sizes_broken, digits_broken, weights_broken, switch_broken, limits_broken, WrongLimits};

use crate::checked::Set;
use crate::close::check_closing;
use crate::numbers::Numbers;
use crate::steps::Steps;
use crate::within::Within;
use faults::fault::Fault;
use words::gadget::Gadget;
use words::modulus::check::{in_range, is_ring, power_in_range};

// Whether a number is even, from 2 to 512.
fn is_even_within(x: u32) -> bool
    ensures { result ≡ even_within x }
{
    x % 2 == 0 && in_range(2, 512, x)
}

// A number refused by its place, unless its test passes.
fn field(passes: bool, field: u32) -> Result<(), Fault>
    ensures { refusal result ≡ unless passes (Fault.Field field) }
{
    Fault::Field { field }.unless(passes)
}

// N, n, q, Q and ψ.
fn check_sizes(n: &Numbers) -> Result<(), Fault>
    ensures { refusal result ≡ sizes_broken n.now }
{
    field(power_in_range(16, 1024, n.degree), 0)?;
    field(is_even_within(n.dimension), 1)?;
    field(power_in_range(32, 2 * n.degree, n.small), 2)?;
    field(is_ring(n.modulus), 3)?;
    field(in_range(1, n.modulus - 1, n.root), 4)
}

// P, B, d and E.
fn check_digits(n: &Numbers) -> Result<(), Fault>
    ensures { refusal result ≡ digits_broken n.now }
{
    field(power_in_range(1, 65536, n.dropped), 5)?;
    field(power_in_range(2, 65536, n.base), 6)?;
    field(in_range(1, 31, n.digits), 7)?;
    field(in_range(0, 1024, n.noise), 8)
}

// F and h.
fn check_weights(n: &Numbers) -> Result<(), Fault>
    ensures { refusal result ≡ weights_broken n.now }
{
    field(in_range(1, n.degree, n.weight), 9)?;
    field(in_range(0, n.dimension, n.ones), 10)
}

// M, C, k, Z and β.
fn check_switch(n: &Numbers) -> Result<(), Fault>
    ensures { refusal result ≡ switch_broken n.now }
{
    field(power_in_range(n.small, 0x10_0000, n.switch), 11)?;
    field(power_in_range(2, 1024, n.radix), 12)?;
    field(in_range(1, 20, n.places), 13)?;
    field(in_range(0, 1024, n.jitter), 14)?;
    field(in_range(1, (n.small / 16).saturating_sub(1), n.bound), 15)
}

// All sixteen.
#[tactic(auto, unfolding(crate::specs::Limits::limits_broken))]
fn check_limits(n: &Numbers) -> Result<(), Fault>
    ensures { refusal result ≡ limits_broken n.now }
{
    check_sizes(n)?;
    check_digits(n)?;
    check_weights(n)?;
    check_switch(n)
}

// Sixteen numbers, each within its limits.
#[tactic(auto, using(crate::proofs::Rules::limits_told, crate::proofs::Limits::limits_least))]
pub fn within(numbers: Numbers) -> Result<Within, Fault>
    ensures answer { refusal result ≡ limits_broken numbers }
    ensures made { IfOk result (λ w. w.numbers ≡ numbers) }
    ensures rules { LimitsTold numbers }
    ensures least { Least (WrongLimits numbers) (limits_broken numbers) }
{
    check_limits(&numbers)?;
    Ok(Within { numbers })
}

// Numbers within their limits, checked for a stated noise.
#[tactic(auto, using(crate::proofs::Rules::rules_told, crate::proofs::Rules::rules_least))]
pub fn checked(within: Within, stated: u64) -> Result<Set, Fault>
    ensures answer { refusal result ≡ rules_broken within.numbers stated }
    ensures made { IfOk result (λ s. (s.within.numbers ≡ within.numbers) × (s.stated ≡ stated)) }
    ensures rules { RulesTold within.numbers stated }
    ensures least { Least (WrongRules within.numbers stated) (rules_broken within.numbers stated) }
{
    let n = within.numbers;
    let gadget = Gadget::of_ring(n.modulus, n.dropped, n.base, n.digits)?;
    let switcher = Gadget::of_switch(n.switch, n.radix, n.places)?;
    let ring = rings::check::ring(n.degree, n.modulus, n.root)?;
    check_closing(&within, stated)?;
    Ok(Set {
        within,
        stated,
        ring,
        gadget,
        switcher,
    })
}

// Sixteen numbers checked for the sweep of these steps.
#[tactic(auto, using(crate::proofs::Rules::set_least))]
pub fn set_for(numbers: Numbers, steps: Steps) -> Result<Set, Fault>
    ensures answer { refusal result ≡ set_broken numbers (stated_noise steps numbers) }
    ensures made { IfOk result (λ s. (s.within.numbers ≡ numbers) × (s.stated ≡ stated_noise steps numbers)) }
    ensures least { Least (WrongSet numbers (stated_noise steps numbers)) (set_broken numbers (stated_noise steps numbers)) }
{
    let within = within(numbers)?;
    checked(within, steps.stated(&within))
}
