ghost use Rattle.std.specs.Prelude.{◌≡◌, ℕ, IfOk};
ghost use Rattle.faults.specs.Least.{refusal};
ghost use Rattle.sweeps.specs.Checking.{StatedFor};
ghost use Rattle.image.specs.Parts.{PartsOf};
ghost use Rattle.engine.specs.Load.{image_numbers, image_broken, image_words_broken, SetOf, LeastKeys};

use crate::lengths::check_parts;
use crate::parts::check_below;
use faults::fault::Fault;
use image::bytes::numbers;
use image::part::Parts;
use image::read::read;
use set::checked::Set;
use sweeps::check::check_for;
use sweeps::sweep::Sweep;

// The parts of an image, and the set of its numbers checked for a sweep. The directory of the image and the lengths
// of its parts are right for it.
pub(crate) fn open<S: Sweep>(image: &[u8]) -> Result<(Parts<'_>, Set), Fault>
    ensures answer { (stated count : ℕ) → StatedFor S.Sweep.noise (image_numbers image.now) stated → StatedFor S.Sweep.count (image_numbers image.now) count → refusal result ≡ image_broken stated count image.now }
    ensures parts { IfOk result (λ r. PartsOf image.now r.0) }
    ensures made { IfOk result (λ r. SetOf S.Sweep.noise S.Sweep.count image.now r.1) }
    ensures least { (stated count : ℕ) → StatedFor S.Sweep.noise (image_numbers image.now) stated → StatedFor S.Sweep.count (image_numbers image.now) count → LeastKeys stated count image.now }
{
    let parts = read(image)?;
    let set = check_for::<S>(numbers(parts.set.bytes()))?;
    check_parts(image, &set, S::selectors(&set.within))?;
    Ok((parts, set))
}

// The set of an image, checked for a sweep.
pub fn inspect<S: Sweep>(image: &[u8]) -> Result<Set, Fault>
    ensures answer { (stated count : ℕ) → StatedFor S.Sweep.noise (image_numbers image.now) stated → StatedFor S.Sweep.count (image_numbers image.now) count → refusal result ≡ image_broken stated count image.now }
    ensures made { IfOk result (λ s. SetOf S.Sweep.noise S.Sweep.count image.now s) }
    ensures least { (stated count : ℕ) → StatedFor S.Sweep.noise (image_numbers image.now) stated → StatedFor S.Sweep.count (image_numbers image.now) count → LeastKeys stated count image.now }
{
    let (_, set) = open::<S>(image)?;
    Ok(set)
}

// The words of an image's keys lie below their moduli, whatever the image is.
pub fn check_words(image: &[u8], set: &Set) -> Result<(), Fault>
    ensures { refusal result ≡ image_words_broken set.now.within.numbers image.now }
{
    check_below(image, 1, set.within.numbers.modulus)?;
    check_below(image, 2, set.within.numbers.modulus)?;
    check_below(image, 3, set.within.numbers.switch)
}
