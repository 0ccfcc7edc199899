ghost use Rattle.std.specs.Prelude.{◌≡◌, ◌<◌, ◌≤◌, false, replicate, slice_index_or, slice_set};
ghost use Rattle.registers.specs.Marks.{filled};

use super::File;

impl File {
    // R, the number of registers.
    pub fn registers(&self) -> u32
        ensures value { result ≡ self.now.count }
        ensures range { (1 ≤ result) × (result ≤ 64) }
    {
        self.count
    }

    // Whether a register is filled. No number of R and above is.
    pub fn is_filled(&self, x: u32) -> bool
        ensures { result ≡ slice_index_or (filled self.now) x false }
    {
        x < self.count && self.marks[x as usize]
    }

    // Empty registers.
    pub(crate) fn fresh(count: u32) -> File
        requires some { 1 ≤ count }
        requires few { count ≤ 64 }
        ensures count { result.count ≡ count }
        ensures marks { filled result ≡ replicate count false }
    {
        File {
            count,
            marks: [false; 64],
        }
    }

    // Sets the mark of a register.
    // Kept: the flag is the mark that is written, and picks no step.
    pub(crate) fn mark(&mut self, z: u32, on: bool)
        requires { z < self.old.count }
        ensures count { self.new.count ≡ self.old.count }
        ensures marks { filled self.new ≡ slice_set (filled self.old) z on }
    {
        self.marks[z as usize] = on;
    }
}
