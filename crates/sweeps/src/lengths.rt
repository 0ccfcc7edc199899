ghost use Rattle.std.specs.Prelude.{◌≡◌, ℕ, ◌*◌, ◌^◌, ◌≤◌, ◌==◌};
ghost use Rattle.faults.specs.Least.{told, unless};
ghost use Rattle.sweeps.specs.Meaning.{sweep_refused, message_refused};

use faults::fault::{Fault, Layer};
use faults::lengths::check_length;
use set::checked::Set;
use set::within::Within;

// The lengths of the lists that a sweep is lent.
#[derive(Clone, Copy)]
pub(crate) struct Lengths {
    pub acc: usize,
    pub exponents: usize,
    pub keys: usize,
    pub work: usize,
    pub scratch: usize,
}

// The lists of a sweep of `count` selectors have their lengths.
pub(crate) fn check_sweep(set: &Set, count: usize, lengths: &Lengths) -> Result<(), Fault>
    requires { count ≤ 2 ^ 14 }
    ensures { result ≡ told (sweep_refused set.now.within.numbers count lengths.now.acc lengths.now.exponents lengths.now.keys lengths.now.work lengths.now.scratch) }
{
    check_length(Layer::Sweep, 0, lengths.acc, set.degree())?;
    check_length(Layer::Sweep, 1, lengths.exponents, set.dimension())?;
    check_length(Layer::Sweep, 2, lengths.keys, set.selector_words(count))?;
    check_length(Layer::Sweep, 3, lengths.work, set.sweep_words())?;
    check_length(Layer::Sweep, 4, lengths.scratch, set.degree())
}

// The lists of a message have their lengths.
pub(crate) fn check_message(within: &Within, secret: usize, out: usize) -> Result<(), Fault>
    ensures { result ≡ told (message_refused within.now.numbers secret out) }
{
    check_length(Layer::Sweep, 0, secret, within.numbers.dimension as usize)?;
    check_length(Layer::Sweep, 1, out, within.numbers.degree as usize)
}
