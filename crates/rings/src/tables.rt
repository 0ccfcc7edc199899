ghost use Rattle.std.specs.Prelude.{◌≡◌, ℕ, ◌+◌, ◌-◌, ◌*◌, ◌/◌, ◌%◌, ◌^◌, ◌<◌, ◌≤◌, length, slice_index};
ghost use Rattle.rings.specs.Tables.{mirror, exponent, Powers};

// Writes the powers of `base`, from the power 0 on.
pub fn fill_powers(base: u32, modulus: u32, out: &mut [u32])
    requires { 1 < modulus }
    ensures { Powers modulus base out.new }
{
    let mut power: u32 = 1;
    for place in out.iter_mut() {
        *place = power;
        power = (power as u64 * base as u64 % modulus as u64) as u32;
    }
}

// The number whose s low bits are those of b, mirrored.
fn mirrored(s: usize, b: usize) -> usize
    requires { s ≤ 10 }
    ensures same { result ≡ mirror s b }
    ensures low { result < 2 ^ s }
{
    if s == 0 {
        0
    } else {
        mirrored(s - 1, b / 2) + ((b % 2) << (s - 1))
    }
}

// The quotient with which multiplication by `factor` needs no division.
pub fn quotient_of(factor: u32, modulus: u32) -> u32
    requires { factor < modulus }
    ensures { result ≡ factor * 2 ^ 32 / modulus }
{
    (((factor as u64) << 32) / modulus as u64) as u32
}

// The rows of a table of roots: `half` places for each of the `log` stages of a transform.
#[derive(Clone, Copy)]
pub struct Rows {
    pub log: usize,
    pub half: usize,
    ghost few: { (0 < log) × (log ≤ 10) },
    ghost size: { half ≡ 2 ^ (log - 1) },
}

impl Rows {
    // How many places they have.
    fn places(&self) -> usize
        ensures same { result ≡ self.now.log * self.now.half }
        ensures few { result ≤ 5120 }
    {
        self.log * self.half
    }

    // The power of the root that stands at place i.
    fn power_at(&self, i: usize) -> usize
        requires { i < self.now.log * self.now.half }
        ensures same { result ≡ exponent self.now.log self.now.half i }
        ensures low { result < 2 * self.now.half }
    {
        let s = i / self.half;
        let m = 1usize << s;
        (1usize << (self.log - 1 - s)) * (2 * mirrored(s, i % self.half % m) + 1)
    }

    // The table of roots, taken from the powers of the root.
    pub fn roots(&self, powers: &[u32]) -> [u32; 5120]
        requires { 2 * self.now.half ≤ length powers.now }
        ensures long { length result ≡ 5120 }
        ensures same { (i : ℕ) → i < self.now.log * self.now.half → slice_index result i ≡ slice_index powers.now (exponent self.now.log self.now.half i) }
    {
        let mut out = [0; 5120];
        for (i, place) in out[..self.places()].iter_mut().enumerate() {
            *place = powers[self.power_at(i)];
        }
        out
    }

    // The table of their quotients.
    pub fn quotients(&self, modulus: u32, roots: &[u32; 5120]) -> [u32; 5120]
        requires { (i : ℕ) → i < self.now.log * self.now.half → slice_index roots.now i < modulus }
        ensures long { length result ≡ 5120 }
        ensures same { (i : ℕ) → i < self.now.log * self.now.half → slice_index result i ≡ slice_index roots.now i * 2 ^ 32 / modulus }
    {
        let mut out = [0; 5120];
        for (i, place) in out[..self.places()].iter_mut().enumerate() {
            *place = quotient_of(roots[i], modulus);
        }
        out
    }
}
