ghost use Rattle.std.specs.Prelude.{◌≡◌, ◌*◌, length, replicate, IfOk};
ghost use Rattle.faults.specs.Least.{refusal, told};
ghost use Rattle.registers.specs.Marks.{state_of};
ghost use Rattle.registers.specs.Registers.{numbers_of, wide};
ghost use Rattle.registers.specs.Steps.{either, fresh, refuse_new, refuse_place, next_place, refuse_read, read_out, refuse_op, next_invert, next_copy, next_clear};
ghost use Rattle.registers.specs.Wrong.{LeastNew, LeastPlace, LeastRead, LeastOp};

use crate::checks::{check_new, check_op, check_place, check_read};
use crate::file::File;
use crate::named::{copy_at, invert_at, put_at, take_at};
use crate::op::Op;
use faults::fault::Fault;
use set::checked::Set;

impl File {
    // A file of R empty registers, all of whose words become 0.
    pub fn new(set: &Set, count: u32, regs: &mut [u16]) -> Result<File, Fault>
        ensures answer { refusal result ≡ refuse_new (numbers_of set.now) count (length regs.old) }
        ensures file { IfOk result (λ f. state_of f regs.new ≡ fresh (numbers_of set.now) count) }
        ensures words { regs.new ≡ either (refuse_new (numbers_of set.now) count (length regs.old)) regs.old (replicate (count * wide (numbers_of set.now)) 0) }
        ensures least { LeastNew (numbers_of set.now) count (length regs.old) }
    {
        check_new(set, count, regs.len())?;
        regs.fill(0);
        Ok(File::fresh(count))
    }

    // Copies the words of a ciphertext to z, and marks z.
    pub fn place(&mut self, set: &Set, z: u32, words: &[u16], regs: &mut [u16]) -> Result<(), Fault>
        ensures answer { result ≡ told (refuse_place (numbers_of set.now) (state_of self.old regs.old) z words.now) }
        ensures state { state_of self.new regs.new ≡ next_place (numbers_of set.now) (state_of self.old regs.old) z words.now }
        ensures least { LeastPlace (numbers_of set.now) (state_of self.old regs.old) z words.now }
    {
        check_place(set, self, z, words, regs)?;
        put_at(set, self.registers(), words, regs, z);
        self.mark(z, true);
        Ok(())
    }

    // Copies the words of x out, by remainders.
    pub fn read(&self, set: &Set, x: u32, out: &mut [u16], regs: &[u16]) -> Result<(), Fault>
        ensures answer { result ≡ told (refuse_read (numbers_of set.now) (state_of self.now regs.now) x (length out.old)) }
        ensures words { out.new ≡ read_out (numbers_of set.now) (state_of self.now regs.now) x out.old }
        ensures least { LeastRead (numbers_of set.now) (state_of self.now regs.now) x (length out.old) }
    {
        check_read(set, self, x, out.len(), regs)?;
        take_at(set, self.registers(), regs, x, out);
        Ok(())
    }

    // Writes the words of x to z, by remainders, and marks z.
    pub fn copy(&mut self, set: &Set, x: u32, z: u32, regs: &mut [u16]) -> Result<(), Fault>
        ensures answer { result ≡ told (refuse_op (numbers_of set.now) (state_of self.old regs.old) (Op.Copy x z)) }
        ensures state { state_of self.new regs.new ≡ next_copy (numbers_of set.now) (state_of self.old regs.old) x z }
        ensures least { LeastOp (numbers_of set.now) (state_of self.old regs.old) (Op.Copy x z) }
    {
        check_op(set, self, Op::Copy { x, z }, regs)?;
        copy_at(set, self.registers(), regs, x, z);
        self.mark(z, true);
        Ok(())
    }

    // Takes the mark of z off, and leaves its words.
    pub fn clear(&mut self, set: &Set, z: u32, regs: &mut [u16]) -> Result<(), Fault>
        ensures answer { result ≡ told (refuse_op (numbers_of set.now) (state_of self.old regs.old) (Op.Clear z)) }
        ensures state { state_of self.new regs.new ≡ next_clear (numbers_of set.now) (state_of self.old regs.old) z }
        ensures least { LeastOp (numbers_of set.now) (state_of self.old regs.old) (Op.Clear z) }
    {
        check_op(set, self, Op::Clear { z }, regs)?;
        self.mark(z, false);
        Ok(())
    }

    // Writes the words of the opposite bit of x to z, and marks z.
    pub fn invert(&mut self, set: &Set, x: u32, z: u32, regs: &mut [u16]) -> Result<(), Fault>
        ensures answer { result ≡ told (refuse_op (numbers_of set.now) (state_of self.old regs.old) (Op.Invert x z)) }
        ensures state { state_of self.new regs.new ≡ next_invert (numbers_of set.now) (state_of self.old regs.old) x z }
        ensures least { LeastOp (numbers_of set.now) (state_of self.old regs.old) (Op.Invert x z) }
    {
        check_op(set, self, Op::Invert { x, z }, regs)?;
        invert_at(set, self.registers(), regs, x, z);
        self.mark(z, true);
        Ok(())
    }
}
