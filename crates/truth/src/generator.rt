ghost use Rattle.std.specs.Prelude.{◌^◌, ◌≤◌};

use set::numbers::Numbers;

// A xorshift generator. Its numbers are the same at each run, so they hide nothing: they serve to show the gates.
#[derive(Drop)]
pub struct Generator {
    state: u32,
}

impl Generator {
    pub fn new() -> Self {
        Generator { state: 2463534242 }
    }

    // The next number, which is not 0.
    fn advance(&mut self) -> u32 {
        let mut x = self.state;
        x ^= x << 13;
        x ^= x >> 17;
        x ^= x << 5;
        self.state = x;
        x
    }

    // A number below the bound.
    fn below(&mut self, bound: u32) -> i32
        requires { bound ≤ 2 ^ 20 }
    {
        (self.advance() % bound.max(1)) as i32
    }

    // A number from -bound to bound.
    pub fn within(&mut self, bound: u32) -> i32
        requires { bound ≤ 2 ^ 16 }
    {
        (self.advance() % (2 * bound + 1)) as i32 - bound as i32
    }

    // Numbers below the bound.
    pub fn fill_below(&mut self, bound: u32, out: &mut [i32])
        requires { bound ≤ 2 ^ 20 }
    {
        for x in out.iter_mut() {
            *x = self.below(bound);
        }
    }

    // Numbers from -bound to bound.
    pub fn fill_within(&mut self, bound: u32, out: &mut [i32])
        requires { bound ≤ 2 ^ 16 }
    {
        for x in out.iter_mut() {
            *x = self.within(bound);
        }
    }

    // The samples of switch rows: for each its random words and its noise.
    pub fn fill_rows(&mut self, numbers: &Numbers, out: &mut [i32])
        requires jitter { numbers.now.jitter ≤ 2 ^ 16 }
        requires switch { numbers.now.switch ≤ 2 ^ 20 }
    {
        for row in out.chunks_exact_mut(numbers.dimension as usize + 1) {
            if let Some((noise, randoms)) = row.split_last_mut() {
                self.fill_below(numbers.switch, randoms);
                *noise = self.within(numbers.jitter);
            }
        }
    }
}
