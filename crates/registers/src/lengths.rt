ghost use Rattle.std.specs.Prelude.{◌≡◌, ◌*◌, ◌&&◌, nat_le};
ghost use Rattle.faults.specs.Least.{told, unless};
ghost use Rattle.registers.specs.Registers.{numbers_of, wide};
ghost use Rattle.registers.specs.Steps.{bad_list, bad_keys, bad_work};

use crate::lists::Lists;
use crate::sizes::{memory_of, selector_words};
use faults::fault::{Fault, Layer};
use faults::lengths::check_length;
use gate::sizes::gate_words;
use set::checked::Set;
use sweeps::sweep::Sweep;

// Key memory, as three lists from this number on.
pub fn check_keys<S: Sweep>(set: &Set, part: Layer, list: u8, lists: Lists) -> Result<(), Fault>
    ensures { result ≡ told (bad_keys part list (numbers_of set.now) (S.Sweep.count set.now.within) lists) }
{
    let first = list as u32;
    check_length(part, first, lists.start, set.key_words())?;
    check_length(part, first + 1, lists.selectors, selector_words::<S>(set))?;
    check_length(part, first + 2, lists.rows, set.row_words())
}

// Small memory, work memory and scratch, as three lists from this number on, each with so many words more than a gate takes.
pub fn check_work(set: &Set, part: Layer, list: u8, more: u8, lists: Lists) -> Result<(), Fault>
    ensures { result ≡ told (bad_work part list more (numbers_of set.now) lists) }
{
    let first = list as u32;
    let more = more as usize;
    check_length(part, first, lists.small, set.cipher_words() + more)?;
    check_length(part, first + 1, lists.work, gate_words(set) + more)?;
    check_length(part, first + 2, lists.scratch, set.degree() + more)
}

// Register memory of so many registers.
pub fn check_memory(set: &Set, part: Layer, list: u32, count: u32, len: usize) -> Result<(), Fault>
    ensures { result ≡ told (bad_list part list len (count * wide (numbers_of set.now))) }
{
    check_length(part, list, len, memory_of(set, count))
}

// R is from 1 to 64.
pub fn check_count(count: u32) -> Result<(), Fault>
    ensures { result ≡ told (unless (nat_le 1 count && nat_le count 64) (Fault.Register count)) }
{
    if count < 1 || count > 64 {
        return Err(Fault::Register { register: count });
    }
    Ok(())
}
