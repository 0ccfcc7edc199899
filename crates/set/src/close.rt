ghost use Rattle.std.specs.Prelude.{◌≡◌, ℕ, ◌+◌, ◌*◌, ◌^◌, ◌<◌, ◌≤◌};
ghost use Rattle.faults.specs.Least.{refusal, unless};
ghost use Rattle.set.specs.Noise.{swept_noise, switch_noise};
ghost use Rattle.set.specs.Rules.{gate_noise, closing_broken};

use crate::noises;
use crate::within::Within;
use faults::fault::Fault;

// 2 × q × M × (V + 2) + q × Q × (1 + F + 2 W) + Q × M × (1 + h)
fn gate_noise(within: &Within, swept: u128, switched: u64) -> u128
    requires swept { swept ≤ 2 ^ 65 }
    requires switched { switched ≤ 31 * 2 ^ 36 }
    ensures { result ≡ 2 * within.now.numbers.small * within.now.numbers.switch * (swept + 2) + within.now.numbers.small * within.now.numbers.modulus * (1 + within.now.numbers.weight + 2 * switched) + within.now.numbers.modulus * within.now.numbers.switch * (1 + within.now.numbers.ones) }
{
    let n = within.numbers;
    let q = n.small as u128;
    let wide = n.modulus as u128;
    let middle = n.switch as u128;
    let first = 2 * q * middle * (swept + 2);
    let second = q * wide * (1 + n.weight as u128 + 2 * switched as u128);
    let third = wide * middle * (1 + n.ones as u128);
    first + second + third
}

// 2 × Q × M × β
fn room(within: &Within) -> u128
    ensures { result ≡ 2 * within.now.numbers.modulus * within.now.numbers.switch * within.now.numbers.bound }
{
    let n = within.numbers;
    2 * n.modulus as u128 * n.switch as u128 * n.bound as u128
}

// A closing condition refused by its number, unless it holds.
fn closing(holds: bool, condition: u32) -> Result<(), Fault>
    ensures { refusal result ≡ unless holds (Fault.Closing condition) }
{
    Fault::Closing { condition }.unless(holds)
}

// The three closing conditions, in turn.
pub fn check_closing(within: &Within, stated: u64) -> Result<(), Fault>
    ensures { refusal result ≡ closing_broken within.now.numbers stated }
{
    let n = within.numbers;
    let swept = noises::swept(within, stated);
    let switched = noises::switched(within);
    closing(8 * (swept + 2) <= n.modulus as u128, 0)?;
    closing(1 + n.weight as u64 + 2 * switched <= n.switch as u64, 1)?;
    closing(gate_noise(within, swept, switched) <= room(within), 2)
}
