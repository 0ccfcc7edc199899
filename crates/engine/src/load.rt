ghost use Rattle.std.specs.Prelude.{◌≡◌, ℕ, ◌*◌, ◌^◌, ◌≤◌, length, replicate, IfOk, None, MatchResult};
ghost use Rattle.faults.specs.Least.{refusal};
ghost use Rattle.image.specs.Bytes.{first_words};
ghost use Rattle.image.specs.Parts.{bytes_of, PartsOf};
ghost use Rattle.kernels.specs.Polynomials.{poly_of};
ghost use Rattle.sweeps.specs.Checking.{StatedFor};
ghost use Rattle.engine.specs.Load.{image_numbers, start_words, selector_words, load_broken, load_lists, image_words_broken, form_rows, SetOf, Filled, ReadsAs, LeastLoad};

use crate::engine::Engine;
use crate::inspect::{check_words, open};
use crate::lengths::{Lengths, check_lists};
use crate::turning::turn_rows;
use faults::fault::Fault;
use image::bytes::words_into;
use image::part::Parts;
use kernels::kernel::Kernel;
use set::checked::Set;
use sweeps::sweep::Sweep;
use words::guard::Wiped;

// The parts and the set of an image whose keys can be loaded into lists of these lengths.
fn accepted<'a, S: Sweep>(image: &'a [u8], lengths: &Lengths) -> Result<(Parts<'a>, Set), Fault>
    ensures answer { (stated count : ℕ) → StatedFor S.Sweep.noise (image_numbers image.now) stated → StatedFor S.Sweep.count (image_numbers image.now) count → refusal result ≡ load_broken stated count image.now lengths.now.start lengths.now.selectors lengths.now.rows lengths.now.scratch }
    ensures parts { IfOk result (λ r. PartsOf image.now r.0) }
    ensures made { IfOk result (λ r. SetOf S.Sweep.noise S.Sweep.count image.now r.1) }
    ensures lists { IfOk result (λ r. load_lists r.1.within.numbers (S.Sweep.count r.1.within) lengths.now.start lengths.now.selectors lengths.now.rows lengths.now.scratch ≡ None) }
    ensures words { IfOk result (λ r. image_words_broken r.1.within.numbers image.now ≡ None) }
    ensures least { (stated count : ℕ) → StatedFor S.Sweep.noise (image_numbers image.now) stated → StatedFor S.Sweep.count (image_numbers image.now) count → LeastLoad stated count image.now lengths.now.start lengths.now.selectors lengths.now.rows lengths.now.scratch }
{
    let (parts, set) = open::<S>(image)?;
    check_lists(&set, S::selectors(&set.within), lengths)?;
    check_words(image, &set)?;
    Ok((parts, set))
}

// Key memory becomes the forms of the start key and of the selectors, and the rows.
// Kept: four lists, for a struct that lends them would serve this one function.
fn fill<K: Kernel>(
    kernel: &K,
    set: &Set,
    count: usize,
    parts: &Parts,
    start: &mut [u32],
    selectors: &mut [u32],
    rows: &mut [u32],
    scratch: &mut [u32],
)
    requires count { count ≤ 2 ^ 14 }
    requires start { length start.old ≡ start_words set.now.within.numbers }
    requires selectors { length selectors.old ≡ selector_words set.now.within.numbers count }
    requires scratch { length scratch.old ≡ set.now.within.numbers.degree }
    ensures start { start.new ≡ form_rows (λ p. K.Kernel.form set.now.ring (poly_of set.now.ring p)) set.now.ring.degree set.now.within.numbers.digits (first_words (length start.old) (bytes_of parts.now.start)) }
    ensures selectors { selectors.new ≡ form_rows (λ p. K.Kernel.form set.now.ring (poly_of set.now.ring p)) set.now.ring.degree (count * set.now.within.numbers.digits) (first_words (length selectors.old) (bytes_of parts.now.selectors)) }
    ensures rows { rows.new ≡ first_words (length rows.old) (bytes_of parts.now.rows) }
{
    words_into(parts.start.bytes(), start);
    words_into(parts.selectors.bytes(), selectors);
    words_into(parts.rows.bytes(), rows);
    turn_rows(kernel, &set.ring, set.digits(), start, scratch);
    turn_rows(kernel, &set.ring, count * set.digits(), selectors, scratch);
}

// Key memory becomes the keys of an image, and an engine is made of its set. A refusal leaves key memory as it was.
pub fn load<K: Kernel + Drop, S: Sweep + Drop>(
    kernel: K,
    sweep: S,
    image: &[u8],
    start: &mut [u32],
    selectors: &mut [u32],
    rows: &mut [u32],
    scratch: &mut [u32],
) -> Result<Engine<K, S>, Fault>
    ensures answer { (stated count : ℕ) → StatedFor S.Sweep.noise (image_numbers image.now) stated → StatedFor S.Sweep.count (image_numbers image.now) count → refusal result ≡ load_broken stated count image.now (length start.old) (length selectors.old) (length rows.old) (length scratch.old) }
    ensures made { IfOk result (λ e. SetOf S.Sweep.noise S.Sweep.count image.now e.set × (e.kernel ≡ kernel) × (e.sweep ≡ sweep)) }
    ensures words { MatchResult result (λ e. Filled K.Kernel.form e.set (S.Sweep.count e.set.within) image.now start.new selectors.new rows.new) (λ _. (start.new ≡ start.old) × (selectors.new ≡ selectors.old) × (rows.new ≡ rows.old)) }
    ensures reads { IfOk result (λ e. ReadsAs K.Kernel.reads e.set (S.Sweep.count e.set.within) image.now start.new selectors.new) }
    ensures scratch { scratch.new ≡ replicate (length scratch.old) 0 }
    ensures least { (stated count : ℕ) → StatedFor S.Sweep.noise (image_numbers image.now) stated → StatedFor S.Sweep.count (image_numbers image.now) count → LeastLoad stated count image.now (length start.old) (length selectors.old) (length rows.old) (length scratch.old) }
{
    let spare = Wiped { words: scratch };
    let lengths = Lengths {
        start: start.len(),
        selectors: selectors.len(),
        rows: rows.len(),
        scratch: spare.words.len(),
    };
    let (parts, set) = accepted::<S>(image, &lengths)?;
    fill(
        &kernel,
        &set,
        S::selectors(&set.within),
        &parts,
        start,
        selectors,
        rows,
        spare.words,
    );
    Ok(Engine::new(kernel, sweep, set))
}
