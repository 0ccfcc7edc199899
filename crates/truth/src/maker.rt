ghost use Rattle.std.specs.Prelude.{◌≡◌, ◌+◌, ◌*◌, ◌^◌, ◌≤◌, length};

use crate::lengths::entry_words;
use crate::modular::{plus, put_residues, residue, times};
use crate::secrets::{check_sample, check_samples, check_secret, masked};
use faults::fault::{Fault, Layer};
use faults::lengths::{check_length, check_lengths};
use gate::keys::Keys;
use kernels::kernel::Kernel;
use kernels::plain::Plain;
use rings::ring::Ring;
use set::checked::Set;
use std::alloc::{AllocError, Global};
use sweeps::sweep::Sweep;
use words::guard::Wiped;
use words::modulus::Modulus;

// What keys are made for: the ring secret f, its inverse and the small secret s.
#[derive(Clone, Copy)]
pub struct Secrets<'a> {
    pub f: &'a [i32],
    pub inverse: &'a [u32],
    pub s: &'a [i32],
}

// Memory for keys.
#[derive(Drop)]
pub struct KeyMemory {
    pub start: Vec<u32>,
    pub selectors: Vec<u32>,
    pub rows: Vec<u32>,
}

impl KeyMemory {
    // Memory of the lengths that the set asks for, all zeros.
    pub fn new<S: Sweep>(heap: Global, set: &Set) -> Result<KeyMemory, AllocError> {
        let size = set.key_words();
        let selectors = set.selector_words(S::selectors(&set.within));
        let rows = set.row_words();
        Ok(KeyMemory {
            start: vec![in heap; 0; size]?,
            selectors: vec![in heap; 0; selectors]?,
            rows: vec![in heap; 0; rows]?,
        })
    }

    pub fn lend(&self) -> Keys<'_> {
        Keys {
            start: &self.start,
            selectors: &self.selectors,
            rows: &self.rows,
        }
    }
}

// What a key holds: 1, as the start key, or the message of a selector.
#[derive(Clone, Copy)]
enum Held<'a> {
    One,
    Message(&'a [u32]),
}

// How many samples the noises of the start key and of the selectors take, and how many the switch rows.
pub fn sample_counts<S: Sweep>(set: &Set) -> (usize, usize)
    ensures { (result.0 ≤ 2 ^ 34) × (result.1 ≤ 2 ^ 34) }
{
    let selectors = set.selector_words(S::selectors(&set.within));
    (set.key_words() + selectors, set.row_words())
}

// Makes the polynomials of the start key and of the selectors, and the switch rows. The samples are the noises of each
// polynomial, of the start key and then of the selectors, and for each row its random words and its noise.
pub fn make_keys<S: Sweep>(
    set: &Set,
    secrets: Secrets<'_>,
    samples: &[i32],
    keys: &mut KeyMemory,
    noise: &mut [u32],
    product: &mut [u32],
) -> Result<(), Fault> {
    let noise = Wiped { words: noise };
    let product = Wiped { words: product };
    let n = set.degree();
    let size = set.key_words();
    let (noise_count, row_count) = sample_counts::<S>(set);
    let lengths = [
        (secrets.f.len(), n),
        (secrets.inverse.len(), n),
        (secrets.s.len(), set.dimension()),
        (samples.len(), noise_count + row_count),
        (keys.start.len(), size),
        (
            keys.selectors.len(),
            set.selector_words(S::selectors(&set.within)),
        ),
        (keys.rows.len(), row_count),
        (noise.words.len(), n),
        (product.words.len(), n),
    ];
    check_lengths(Layer::Secrets, &lengths)?;
    check_secret(0, secrets.f, -1..=1, set.within.numbers.weight)?;
    check_secret(2, secrets.s, 0..=1, set.within.numbers.ones)?;
    check_inverse(set, secrets, noise.words, product.words)?;
    let (noises, row_samples) = cut(samples, noise_count)?;
    let bound = set.within.numbers.noise as i32;
    check_samples(3, noises, -bound..=bound)?;
    check_rows(set, noise_count, samples)?;
    let (first, others) = cut(noises, keys.start.len())?;
    make_key(
        set,
        secrets.inverse,
        first,
        Held::One,
        &mut keys.start,
        noise.words,
    )?;
    make_selectors::<S>(
        set,
        secrets,
        others,
        &mut keys.selectors,
        noise.words,
        product.words,
    )?;
    make_rows(set, secrets, row_samples, &mut keys.rows)
}

// The samples before a place, and those from it on.
fn cut(samples: &[i32], at: usize) -> Result<(&[i32], &[i32]), Fault> {
    samples.split_at_checked(at).ok_or(Fault::Length {
        list: 3,
        part: Layer::Secrets,
    })
}

// Refuses an inverse whose product with f is not 1.
fn check_inverse(
    set: &Set,
    secrets: Secrets<'_>,
    words: &mut [u32],
    product: &mut [u32],
) -> Result<(), Fault> {
    check_length(Layer::Secrets, 0, secrets.f.len(), words.len())?;
    check_length(Layer::Secrets, 8, product.len(), set.degree())?;
    put_residues(secrets.f, set.wide(), words);
    multiply(&set.ring, words, secrets.inverse, product)?;
    check_unit(product)
}

// Refuses a polynomial that is not 1, at its first coefficient that differs.
fn check_unit(polynomial: &[u32]) -> Result<(), Fault>
    requires { length polynomial.now ≤ 1024 }
{
    for (i, word) in polynomial.iter().enumerate() {
        let right = if i == 0 { 1 } else { 0 };
        if *word != right {
            return Err(Fault::Inverse {
                coefficient: i as u32,
            });
        }
    }
    Ok(())
}

// Refuses a random word of a row that is not below the switch modulus, and a noise outside its bound.
// The rows' samples follow the noises of the polynomials.
fn check_rows(set: &Set, noises: usize, samples: &[i32]) -> Result<(), Fault> {
    let n = set.dimension();
    let top = set.middle().get() as i32 - 1;
    let jitter = set.within.numbers.jitter as i32;
    let (noises, rows) = cut(samples, noises)?;
    for (i, sample) in rows.iter().enumerate() {
        let bounds = if i % (n + 1) < n {
            0..=top
        } else {
            -jitter..=jitter
        };
        check_sample(3, noises.len() + i, *sample, bounds)?;
    }
    Ok(())
}

// Makes the selectors, each with the message that the sweep tells.
fn make_selectors<S: Sweep>(
    set: &Set,
    secrets: Secrets<'_>,
    noises: &[i32],
    selectors: &mut [u32],
    noise: &mut [u32],
    message: &mut [u32],
) -> Result<(), Fault> {
    let size = set.key_words();
    let words = set.selector_words(S::selectors(&set.within));
    check_length(Layer::Secrets, 3, noises.len(), words)?;
    check_length(Layer::Secrets, 5, selectors.len(), words)?;
    let keys = noises
        .chunks_exact(size)
        .zip(selectors.chunks_exact_mut(size));
    for (j, (noises, key)) in keys.enumerate() {
        S::tell(&set.within, secrets.s, j, message)?;
        make_key(
            set,
            secrets.inverse,
            noises,
            Held::Message(message),
            key,
            noise,
        )?;
    }
    Ok(())
}

// Makes the polynomials of a key. With w = P × B^i, polynomial i is (noise + w) × f' where the key holds 1,
// and noise × f' + w × message where it holds a message.
fn make_key(
    set: &Set,
    inverse: &[u32],
    noises: &[i32],
    held: Held<'_>,
    key: &mut [u32],
    noise: &mut [u32],
) -> Result<(), Fault> {
    let n = set.degree();
    let q = set.wide();
    check_length(Layer::Secrets, 3, noises.len(), set.key_words())?;
    check_length(Layer::Secrets, 4, key.len(), set.key_words())?;
    check_length(Layer::Secrets, 7, noise.len(), n)?;
    if let Held::Message(message) = held {
        check_length(Layer::Secrets, 8, message.len(), n)?;
    }
    let mut weight = set.within.numbers.dropped % q.get();
    for (noises, polynomial) in noises.chunks_exact(n).zip(key.chunks_exact_mut(n)) {
        put_residues(noises, q, noise);
        if let Held::One = held {
            add_constant(noise, weight, q);
        }
        multiply(&set.ring, noise, inverse, polynomial)?;
        if let Held::Message(message) = held {
            add_scaled(polynomial, message, weight, q);
        }
        weight = times(weight, set.within.numbers.base, q);
    }
    Ok(())
}

// Adds a number to a polynomial.
fn add_constant(polynomial: &mut [u32], number: u32, modulus: Modulus)
    requires { 1 ≤ length polynomial.old }
{
    if let Some(word) = polynomial.first_mut() {
        *word = plus(*word, number, modulus);
    }
}

// Adds a multiple of one polynomial to another.
fn add_scaled(polynomial: &mut [u32], other: &[u32], factor: u32, modulus: Modulus)
    requires { length other.now ≡ length polynomial.old }
{
    for (word, other) in polynomial.iter_mut().zip(other) {
        *word = plus(*word, times(factor, *other, modulus), modulus);
    }
}

// The product of two polynomials.
fn multiply(ring: &Ring, a: &[u32], b: &[u32], out: &mut [u32]) -> Result<(), Fault> {
    out.fill(0);
    Plain.fold(ring, out, a, b)
}

// Makes the switch rows: for each entry of f as many as the set has places.
fn make_rows(
    set: &Set,
    secrets: Secrets<'_>,
    samples: &[i32],
    rows: &mut [u32],
) -> Result<(), Fault> {
    check_length(Layer::Secrets, 0, secrets.f.len(), set.degree())?;
    check_length(Layer::Secrets, 2, secrets.s.len(), set.dimension())?;
    check_length(Layer::Secrets, 3, samples.len(), set.row_words())?;
    check_length(Layer::Secrets, 6, rows.len(), set.row_words())?;
    make_each_row(set, secrets.f, secrets.s, samples, rows);
    Ok(())
}

// Makes the rows of each entry of f.
fn make_each_row(set: &Set, f: &[i32], s: &[i32], samples: &[i32], rows: &mut [u32])
    requires secret { length s.now ≡ set.now.within.numbers.dimension }
    requires samples { length samples.now ≡ length f.now * (set.now.within.numbers.places * (set.now.within.numbers.dimension + 1)) }
    requires rows { length rows.old ≡ length f.now * (set.now.within.numbers.places * (set.now.within.numbers.dimension + 1)) }
{
    let size = entry_words(set);
    let parts = samples.chunks_exact(size).zip(rows.chunks_exact_mut(size));
    for (entry, (samples, rows)) in f.iter().zip(parts) {
        let message = residue(*entry as i64, set.middle());
        make_entry_rows(set, message, s, samples, rows);
    }
}

// Makes the rows of one entry: row i is of the message times C^i.
fn make_entry_rows(set: &Set, message: u32, s: &[i32], samples: &[i32], rows: &mut [u32])
    requires secret { length s.now ≡ set.now.within.numbers.dimension }
    requires samples { length samples.now ≡ set.now.within.numbers.places * (set.now.within.numbers.dimension + 1) }
    requires rows { length rows.old ≡ set.now.within.numbers.places * (set.now.within.numbers.dimension + 1) }
{
    let length = set.dimension() + 1;
    let modulus = set.middle();
    let mut power = message;
    for (samples, row) in samples
        .chunks_exact(length)
        .zip(rows.chunks_exact_mut(length))
    {
        make_row(power, s, modulus, samples, row);
        power = times(power, set.within.numbers.radix, modulus);
    }
}

// One row: its random words, and the last word.
fn make_row(message: u32, s: &[i32], modulus: Modulus, samples: &[i32], row: &mut [u32])
    requires samples { length samples.now ≡ length s.now + 1 }
    requires row { length row.old ≡ length s.now + 1 }
{
    put_residues(samples, modulus, row);
    if let (Some((noise, randoms)), Some(last)) = (samples.split_last(), row.last_mut()) {
        *last = masked(message, *noise, randoms, s, modulus);
    }
}
