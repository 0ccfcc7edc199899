ghost use Rattle.std.specs.Prelude.{◌≡◌, ℕ, IfOk};
ghost use Rattle.faults.specs.Least.{Least, refusal};
ghost use Rattle.set.specs.Rules.{set_broken, WrongSet};
ghost use Rattle.sweeps.specs.Checking.{StatedFor};

use faults::fault::Fault;
use set::checked::Set;
use set::numbers::Numbers;
use sweeps::check::check_for;
use sweeps::sweep::Sweep;

// What all calls on keys and registers share: the kernel, the sweep, and the set that was checked for this sweep.
// Its fields are its own, so that no call can mix them.
#[derive(Drop)]
pub struct Engine<K: Drop, S: Drop> {
    kernel: K,
    sweep: S,
    set: Set,
}

impl<K: Drop, S: Drop> Engine<K, S> {
    // An engine of its three parts.
    pub(crate) fn new(kernel: K, sweep: S, set: Set) -> Engine<K, S>
        ensures { (result.kernel ≡ kernel) × (result.sweep ≡ sweep) × (result.set ≡ set) }
    {
        Engine { kernel, sweep, set }
    }

    pub fn kernel(&self) -> &K
        ensures { result.now ≡ self.now.kernel }
    {
        &self.kernel
    }

    pub fn sweep(&self) -> &S
        ensures { result.now ≡ self.now.sweep }
    {
        &self.sweep
    }

    pub fn set(&self) -> &Set
        ensures { result.now ≡ self.now.set }
    {
        &self.set
    }
}

impl<K: Drop, S: Sweep + Drop> Engine<K, S> {
    // Sixteen numbers checked for the sweep.
    pub fn checked(kernel: K, sweep: S, numbers: Numbers) -> Result<Engine<K, S>, Fault>
        ensures answer { (stated : ℕ) → StatedFor S.Sweep.noise numbers stated → refusal result ≡ set_broken numbers stated }
        ensures made { IfOk result (λ e. (e.set.within.numbers ≡ numbers) × (e.set.stated ≡ S.Sweep.noise e.set.within)) }
        ensures kept { IfOk result (λ e. (e.kernel ≡ kernel) × (e.sweep ≡ sweep)) }
        ensures least { (stated : ℕ) → StatedFor S.Sweep.noise numbers stated → Least (WrongSet numbers stated) (refusal result) }
    {
        let set = check_for::<S>(numbers)?;
        Ok(Engine { kernel, sweep, set })
    }
}
