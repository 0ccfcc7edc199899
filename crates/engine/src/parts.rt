ghost use Rattle.std.specs.Prelude.{◌≡◌, ◌^◌, ◌<◌, ◌≤◌, length, take, drop};
ghost use Rattle.faults.specs.Least.{refusal};
ghost use Rattle.image.specs.Directory.{part_at};
ghost use Rattle.engine.specs.Load.{word_broken};

use faults::fault::Fault;
use image::bytes::first_high;
use image::directory::{length_of, offset_of};

// The bytes from `from` on, at most `long` of them.
fn cut(bytes: &[u8], from: usize, long: usize) -> &[u8]
    ensures part { result.now ≡ take long (drop from bytes.now) }
    ensures short { length result.now ≤ long }
{
    let rest = bytes.get(from..).unwrap_or(&[]);
    rest.get(..long).unwrap_or(rest)
}

// The bytes of a part, as far as they lie within the image.
// Kept: a pair by its place, for an image that is refused has no parts to hand out.
pub fn part_of(image: &[u8], pair: u32) -> &[u8]
    ensures bytes { result.now ≡ part_at image.now pair }
    ensures short { length result.now < 2 ^ 32 }
{
    cut(
        image,
        offset_of(image, pair) as usize,
        length_of(image, pair) as usize,
    )
}

// The words of a part lie below a modulus.
pub fn check_below(image: &[u8], pair: u32, modulus: u32) -> Result<(), Fault>
    ensures { refusal result ≡ word_broken image.now pair modulus }
{
    match first_high(part_of(image, pair), modulus) {
        None => Ok(()),
        Some(at) => Err(Fault::ImageWord {
            offset: offset_of(image, pair) as u64 + at as u64,
        }),
    }
}
