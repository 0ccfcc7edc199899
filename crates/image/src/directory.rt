ghost use Rattle.std.specs.Prelude.{◌≡◌};
ghost use Rattle.faults.specs.Least.{refusal, unless};
ghost use Rattle.image.specs.Directory.{offset_of, length_of, end_of, header_fits, span_fits, image_refused};

use crate::bytes::{all_zero, word_at};
use faults::fault::Fault;

// Where part `pair` starts, as the directory tells.
// Kept: a pair is a place that is reckoned with and that a fault tells, and a narrower type would ask more of callers.
pub fn offset_of(image: &[u8], pair: u32) -> u32
    ensures { result ≡ offset_of image.now pair }
{
    word_at(image, 8 * pair as usize + 2)
}

// How many bytes it has.
pub fn length_of(image: &[u8], pair: u32) -> u32
    ensures { result ≡ length_of image.now pair }
{
    word_at(image, 8 * pair as usize + 6)
}

// Where it ends.
fn end_of(image: &[u8], pair: u32) -> usize
    ensures { result ≡ end_of image.now pair }
{
    offset_of(image, pair) as usize + length_of(image, pair) as usize
}

// Whether there is room for a directory, of four pairs.
fn header_fits(image: &[u8]) -> bool
    ensures { result ≡ header_fits image.now }
{
    image.len() >= 34 && u16::from_be_bytes([image[0], image[1]]) == 4
}

// Whether a part lies from `from` on and within the image, after a gap of zeros.
fn span_fits(image: &[u8], from: usize, pair: u32) -> bool
    ensures { result ≡ span_fits image.now from pair }
{
    let offset = offset_of(image, pair) as usize;
    from <= offset && end_of(image, pair) <= image.len() && all_zero(&image[from..offset])
}

// A pair refused by its place, unless its test passes.
fn pair(passes: bool, pair: u32) -> Result<(), Fault>
    ensures { refusal result ≡ unless passes (Fault.Directory pair) }
{
    Fault::Directory { pair }.unless(passes)
}

// The pairs in turn.
pub(crate) fn check_pairs(image: &[u8]) -> Result<(), Fault>
    ensures { refusal result ≡ image_refused image.now }
{
    pair(header_fits(image), 0)?;
    pair(span_fits(image, 34, 0) && length_of(image, 0) == 64, 0)?;
    pair(span_fits(image, end_of(image, 0), 1), 1)?;
    pair(span_fits(image, end_of(image, 1), 2), 2)?;
    pair(
        span_fits(image, end_of(image, 2), 3) && end_of(image, 3) == image.len(),
        3,
    )
}
