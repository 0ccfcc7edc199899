ghost use Rattle.std.specs.Prelude.{◌≤◌};

// R registers, and which of them are filled. Their words lie in memory that is lent to every call.
#[derive(Drop)]
pub struct File {
    count: u32,
    // Kept: an array of fixed length, since no memory is allocated and want of memory is no cause.
    marks: [bool; 64],
    ghost some: { 1 ≤ count },
    ghost few: { count ≤ 64 },
}

pub mod marks;
