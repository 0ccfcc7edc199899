ghost use Rattle.std.specs.Prelude.{◌≡◌, ℕ, ◌+◌, ◌-◌, ◌*◌, ◌/◌, ◌%◌, ◌^◌, ◌<◌, ◌≤◌, cond, length, take, drop, replicate, pos, ◌+ℤ◌, ◌*ℤ◌, slice_index, slice_index_or, slice_set, unsigned_abs};
ghost use Rattle.algebra.specs.Ints.{Cong, sum_z};
ghost use Rattle.algebra.specs.Words.{word_of};
ghost use Rattle.gate.specs.Stages.{switch_words, split_by, rows_of, all_rows_of, Added};

use crate::parts::part_of;
use kernels::remainders;
use words::gadget::Gadget;

// A digit as a word of 32 bits.
fn wrapped(digit: i64) -> u32
    requires { unsigned_abs digit < 2 ^ 31 }
    ensures { result ≡ word_of (2 ^ 32) digit }
{
    digit.rem_euclid(0x1_0000_0000) as u32
}

// A row times a digit is added, modulo 2^32.
fn add_row(digit: u32, row: &[u32], out: &mut [u32])
    requires { length row.now ≡ length out.old }
    ensures { (t : ℕ) → t < length out.old → slice_index out.new t ≡ (slice_index out.old t + digit * slice_index row.now t % 2 ^ 32) % 2 ^ 32 }
{
    for (t, word) in out.iter_mut().enumerate() {
        *word = word.wrapping_add(digit.wrapping_mul(row[t]));
    }
}

// Digits times their rows are added.
fn add_digits(digits: &[i64], rows: &[u32], out: &mut [u32])
    requires small { (i : ℕ) → i < length digits.now → unsigned_abs (slice_index_or digits.now i (pos 0)) < 2 ^ 31 }
    requires rows { length rows.now ≡ length digits.now * length out.old }
    ensures { Added out.old out.new (rows_of digits.now (length digits.now) (length out.old) rows.now) }
{
    let size = out.len();
    for (i, digit) in digits.iter().enumerate() {
        add_row(wrapped(*digit), part_of(rows, i, size), out);
    }
}

// The digits of a word.
fn split_into(gadget: &Gadget, word: u32, digits: &mut [i64])
    requires { length digits.old ≡ gadget.now.digits }
    ensures same { digits.new ≡ split_by gadget.now word }
    ensures small { (i : ℕ) → i < length digits.new → unsigned_abs (slice_index_or digits.new i (pos 0)) < 2 ^ 31 }
{
    let _ = gadget.split(word, digits);
}

// The digits of a word, split into `digits`, times their rows are added.
fn add_word(gadget: &Gadget, word: u32, digits: &mut [i64], rows: &[u32], out: &mut [u32])
    requires digits { length digits.old ≡ gadget.now.digits }
    requires rows { length rows.now ≡ gadget.now.digits * length out.old }
    ensures { Added out.old out.new (rows_of (split_by gadget.now word) gadget.now.digits (length out.old) rows.now) }
{
    split_into(gadget, word, digits);
    add_digits(digits, rows, out);
}

// So for each of some words.
fn add_words(gadget: &Gadget, words: &[u32], digits: &mut [i64], rows: &[u32], out: &mut [u32])
    requires digits { length digits.old ≡ gadget.now.digits }
    requires rows { length rows.now ≡ length words.now * (gadget.now.digits * length out.old) }
    requires few { length out.old ≤ 1024 }
    ensures { Added out.old out.new (λ t. sum_z (length words.now) (λ j. all_rows_of gadget.now words.now (length out.old) rows.now j t)) }
{
    let size = gadget.digits as usize * out.len();
    for (j, word) in words.iter().enumerate() {
        add_word(gadget, *word, digits, part_of(rows, j, size), out);
    }
}

// Zeros, and a word at the last place.
fn begin(last: usize, word: u32, out: &mut [u32])
    requires { length out.old ≡ last + 1 }
    ensures { out.new ≡ slice_set (replicate (last + 1) 0) last word }
{
    out.fill(0);
    out[last] = word;
}

// N + 1 words switched to n + 1: from n zeros and the last word, digits times rows are added, and rounded nowhere.
pub fn switch_words(
    gadget: &Gadget,
    degree: usize,
    last: usize,
    words: &[u32],
    rows: &[u32],
    out: &mut [u32],
)
    requires whole { 2 ^ gadget.now.shift ≡ 1 }
    requires divides { 2 ^ 32 % gadget.now.modulus.value ≡ 0 }
    requires words { length words.now ≡ degree + 1 }
    requires rows { length rows.now ≡ degree * (gadget.now.digits * (last + 1)) }
    requires out { length out.old ≡ last + 1 }
    requires few { last < 1024 }
    ensures { out.new ≡ switch_words degree last gadget.now.modulus.value (2 ^ gadget.now.width) gadget.now.digits rows.now words.now }
{
    // Kept: room for the most digits, of which `places` are used, since nothing below the programs takes from the heap.
    let mut digits = [0i64; 31];
    let places = gadget.digits as usize;
    begin(last, words[degree], out);
    add_words(gadget, &words[0..degree], &mut digits[0..places], rows, out);
    remainders::divide(out, gadget.modulus);
}
