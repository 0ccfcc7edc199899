ghost use Rattle.std.specs.Prelude.{◌≡◌, ◌*◌, ◌^◌, ◌≤◌};
ghost use Rattle.faults.specs.Least.{refusal, unless};
ghost use Rattle.faults.specs.declared.fault.Layer.TheVariants.{Image};
ghost use Rattle.engine.specs.Load.{start_words, selector_words, row_words, parts_broken, load_lists};

use faults::fault::{Fault, Layer};
use faults::lengths::check_length;
use image::directory::length_of;
use set::checked::Set;

// A part refused by its pair, unless its length is right.
fn part(right: bool, pair: u32) -> Result<(), Fault>
    ensures { refusal result ≡ unless right (Fault.PartLength pair) }
{
    Fault::PartLength { pair }.unless(right)
}

// The parts of an image have their lengths.
// Kept: `count ≤ 2 ^ 14` at each that is told a count, for a type of one number and its bound is no plainer.
pub fn check_parts(image: &[u8], set: &Set, count: usize) -> Result<(), Fault>
    requires { count ≤ 2 ^ 14 }
    ensures { refusal result ≡ parts_broken set.now.within.numbers count image.now }
{
    part(length_of(image, 1) as usize == 4 * set.key_words(), 1)?;
    part(
        length_of(image, 2) as usize == 4 * set.selector_words(count),
        2,
    )?;
    part(length_of(image, 3) as usize == 4 * set.row_words(), 3)
}

// The lengths of the lists that a load is lent.
#[derive(Clone, Copy)]
pub struct Lengths {
    pub start: usize,
    pub selectors: usize,
    pub rows: usize,
    pub scratch: usize,
}

// The lists of a load have their lengths.
pub fn check_lists(set: &Set, count: usize, lengths: &Lengths) -> Result<(), Fault>
    requires { count ≤ 2 ^ 14 }
    ensures { refusal result ≡ load_lists set.now.within.numbers count lengths.now.start lengths.now.selectors lengths.now.rows lengths.now.scratch }
{
    check_length(Layer::Image, 1, lengths.start, set.key_words())?;
    check_length(
        Layer::Image,
        2,
        lengths.selectors,
        set.selector_words(count),
    )?;
    check_length(Layer::Image, 3, lengths.rows, set.row_words())?;
    check_length(Layer::Image, 4, lengths.scratch, set.degree())
}
