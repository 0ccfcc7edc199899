ghost use Rattle.std.specs.Prelude.{◌≡◌, ℕ, IfOk};
ghost use Rattle.faults.specs.Least.{Least, refusal};
ghost use Rattle.set.specs.Rules.{set_broken, WrongSet};
ghost use Rattle.sweeps.specs.Checking.{StatedFor};

use crate::sweep::Sweep;
use faults::fault::Fault;
use set::checked::Set;
use set::numbers::Numbers;
use set::within::Within;

// Sixteen numbers checked for a sweep: the set keeps its stated noise.
pub fn check_for<S: Sweep>(numbers: Numbers) -> Result<Set, Fault>
    ensures answer { (stated : ℕ) → StatedFor S.Sweep.noise numbers stated → refusal result ≡ set_broken numbers stated }
    ensures made { IfOk result (λ s. (s.within.numbers ≡ numbers) × (s.stated ≡ S.Sweep.noise s.within)) }
    ensures least { (stated : ℕ) → StatedFor S.Sweep.noise numbers stated → Least (WrongSet numbers stated) (refusal result) }
{
    let within = set::check::within(numbers)?;
    let stated = S::stated(&within);
    set::check::checked(within, stated)
}
