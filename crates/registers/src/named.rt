ghost use Rattle.std.specs.Prelude.{◌≡◌, ◌+◌, ◌*◌, ◌<◌, ◌≤◌, length};
ghost use Rattle.registers.specs.Registers.{numbers_of, wide, row_at, put_row, remainders, opposite};

use crate::rows::reduce;
use crate::sizes::small;
use gate::in_place;
use set::checked::Set;

// The place of the first word of the register x, of so many.
fn place_of(set: &Set, count: u32, x: u32) -> usize
    requires { x < count }
    ensures place { result ≡ x * wide (numbers_of set.now) }
    ensures inside { result + wide (numbers_of set.now) ≤ count * wide (numbers_of set.now) }
{
    x as usize * set.cipher_words()
}

// Copies words to the register z, of so many.
// Kept: set, count and regs one by one here and below, since a contract speaks of what a struct of `&mut` leaves only as `.exit.1.0.now`.
pub fn put_at(set: &Set, count: u32, new: &[u16], regs: &mut [u16], z: u32)
    requires whole { length regs.old ≡ count * wide (numbers_of set.now) }
    requires low { z < count }
    requires long { length new.now ≡ wide (numbers_of set.now) }
    ensures { regs.new ≡ put_row (numbers_of set.now) z regs.old new.now }
{
    let w = set.cipher_words();
    let at = place_of(set, count, z);
    let row = &mut regs[at..at + w];
    row.copy_from_slice(new);
}

// Reads the register x.
pub fn take_at(set: &Set, count: u32, regs: &[u16], x: u32, out: &mut [u16])
    requires whole { length regs.now ≡ count * wide (numbers_of set.now) }
    requires low { x < count }
    requires long { length out.old ≡ wide (numbers_of set.now) }
    ensures { out.new ≡ remainders (numbers_of set.now) (row_at (wide (numbers_of set.now)) x regs.now) }
{
    let w = set.cipher_words();
    let at = place_of(set, count, x);
    out.copy_from_slice(&regs[at..at + w]);
    reduce(small(set), out);
}

// Copies the register x to z.
pub fn copy_at(set: &Set, count: u32, regs: &mut [u16], x: u32, z: u32)
    requires whole { length regs.old ≡ count * wide (numbers_of set.now) }
    requires from { x < count }
    requires to { z < count }
    ensures { regs.new ≡ put_row (numbers_of set.now) z regs.old (remainders (numbers_of set.now) (row_at (wide (numbers_of set.now)) x regs.old)) }
{
    let w = set.cipher_words();
    let at = place_of(set, count, z);
    let from = place_of(set, count, x);
    regs.copy_within(from..from + w, at);
    let row = &mut regs[at..at + w];
    reduce(small(set), row);
}

// Writes the opposite bit of the register x to z.
pub fn invert_at(set: &Set, count: u32, regs: &mut [u16], x: u32, z: u32)
    requires whole { length regs.old ≡ count * wide (numbers_of set.now) }
    requires from { x < count }
    requires to { z < count }
    ensures { regs.new ≡ put_row (numbers_of set.now) z regs.old (opposite (numbers_of set.now) (row_at (wide (numbers_of set.now)) x regs.old)) }
{
    let _ = in_place::invert_at(set, x, z, regs);
}
