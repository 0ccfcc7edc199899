ghost use Rattle.std.specs.Prelude.{◌≡◌, length};

use words::modulus::Modulus;

// The sum of two words below the modulus.
pub fn plus(a: u32, b: u32, modulus: Modulus) -> u32 {
    let modulus = modulus.get();
    let sum = a.wrapping_add(b);
    if sum < modulus {
        sum
    } else {
        sum.wrapping_sub(modulus)
    }
}

// The difference of two words below the modulus.
pub fn minus(a: u32, b: u32, modulus: Modulus) -> u32 {
    let difference = a.wrapping_sub(b);
    if a < b {
        difference.wrapping_add(modulus.get())
    } else {
        difference
    }
}

// The product of two words.
pub fn times(a: u32, b: u32, modulus: Modulus) -> u32 {
    (a as u64 * b as u64 % modulus.get() as u64) as u32
}

// The word of any signed number.
pub fn residue(number: i64, modulus: Modulus) -> u32 {
    number.rem_euclid(modulus.get() as i64) as u32
}

// Puts the words of signed numbers.
pub fn put_residues(numbers: &[i32], modulus: Modulus, words: &mut [u32])
    requires { length words.old ≡ length numbers.now }
{
    for (word, number) in words.iter_mut().zip(numbers) {
        *word = residue(*number as i64, modulus);
    }
}

// The sum of words times the entries of a secret.
pub fn inner<T: Copy + Into<i64>>(words: &[T], secret: &[i32], modulus: Modulus) -> u32
    requires { length words.now ≡ length secret.now }
{
    words.iter().zip(secret).fold(0, |sum, (word, entry)| {
        let word = residue((*word).into(), modulus);
        let entry = residue(*entry as i64, modulus);
        plus(sum, times(word, entry, modulus), modulus)
    })
}
