ghost use Rattle.std.specs.Prelude.{◌≡◌, ◌<◌, ◌≤◌, length, IfSome, nat_le};
ghost use Rattle.std.specs.List.{position_from};
ghost use Rattle.registers.specs.Registers.{reduced};

// Each word becomes its remainder.
// Kept: kernels has this loop for words of 32 bits; a trait over both widths would be longer than either.
pub fn reduce(q: u16, row: &mut [u16])
    requires { 0 < q }
    ensures { row.new ≡ reduced (length row.old) q row.old }
{
    for word in row.iter_mut() {
        *word %= q;
    }
}

// The place of the first word that is not below q.
pub fn first_high(q: u16, row: &[u16]) -> Option<usize>
    ensures place { result ≡ position_from (λ w. nat_le q w) 0 row.now }
    ensures inside { IfSome result (λ i. i < length row.now) }
{
    row.iter().position(|word| q <= *word)
}
