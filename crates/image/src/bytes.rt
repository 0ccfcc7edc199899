ghost use Rattle.std.specs.Prelude.{◌≡◌, ◌+◌, ◌*◌, ◌<◌, length, IfSome, slice_index};
ghost use Rattle.image.specs.Bytes.{big_endian, word_at, numbers_of, first_high, four_times, first_words, words_of, all_zero};

use set::numbers::Numbers;

// The byte k places after `at`, and 0 past the end.
fn byte_at(bytes: &[u8], at: usize, k: usize) -> u8
    ensures { result ≡ slice_index bytes.now (at + k) }
{
    bytes.get(at.saturating_add(k)).copied().unwrap_or(0)
}

// The word of four bytes, highest first.
fn big_endian(bytes: [u8; 4]) -> u32
    ensures { result ≡ big_endian (slice_index bytes 0) (slice_index bytes 1) (slice_index bytes 2) (slice_index bytes 3) }
{
    u32::from_be_bytes(bytes)
}

// The word of the four bytes from `at` on. Bytes past the end count as 0.
pub fn word_at(bytes: &[u8], at: usize) -> u32
    ensures { result ≡ word_at bytes.now at }
{
    // Four bytes at once where they are there: one by one, reading takes three times as long.
    if let Some(rest) = bytes.get(at..) {
        if let Some(four) = rest.first_chunk::<4>() {
            return big_endian(*four);
        }
    }
    let a = byte_at(bytes, at, 0);
    let b = byte_at(bytes, at, 1);
    let c = byte_at(bytes, at, 2);
    let d = byte_at(bytes, at, 3);
    big_endian([a, b, c, d])
}

// The sixteen numbers of a set part.
// Kept: an array of words taken apart by a pattern would not say where each number lies.
pub fn numbers(part: &[u8]) -> Numbers
    ensures { result ≡ numbers_of part.now }
{
    Numbers {
        degree: word_at(part, 0),
        dimension: word_at(part, 4),
        small: word_at(part, 8),
        modulus: word_at(part, 12),
        root: word_at(part, 16),
        dropped: word_at(part, 20),
        base: word_at(part, 24),
        digits: word_at(part, 28),
        noise: word_at(part, 32),
        weight: word_at(part, 36),
        ones: word_at(part, 40),
        switch: word_at(part, 44),
        radix: word_at(part, 48),
        places: word_at(part, 52),
        jitter: word_at(part, 56),
        bound: word_at(part, 60),
    }
}

// Word k of a part, and 0 past the end.
fn nth_word(part: &[u8], k: usize) -> u32
    ensures { result ≡ word_at part.now (4 * k) }
{
    word_at(part, k.saturating_mul(4))
}

// The words of a part, as many as there is room for.
pub fn words_into(part: &[u8], out: &mut [u32])
    ensures { out.new ≡ first_words (length out.old) part.now }
{
    for (k, word) in out.iter_mut().enumerate() {
        *word = nth_word(part, k);
    }
}

// The first word of a part that is not below the modulus.
fn first_word(part: &[u8], modulus: u32) -> Option<usize>
    ensures index { result ≡ first_high modulus 0 (words_of part.now) }
    ensures inside { IfSome result (λ i. 4 * i < length part.now) }
{
    (0..part.len() / 4).find(|k| nth_word(part, *k) >= modulus)
}

// Where it lies, in bytes from the part's start.
pub fn first_high(part: &[u8], modulus: u32) -> Option<usize>
    ensures { result ≡ four_times (first_high modulus 0 (words_of part.now)) }
{
    first_word(part, modulus).map(|i| 4 * i)
}

// Whether all bytes are 0.
pub(crate) fn all_zero(bytes: &[u8]) -> bool
    ensures { result ≡ all_zero bytes.now }
{
    bytes.iter().all(|b| *b == 0)
}
