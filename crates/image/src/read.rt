ghost use Rattle.std.specs.Prelude.{◌≡◌, ◌≤◌, length, IfOk, OnOk};
ghost use Rattle.faults.specs.Least.{Least, refusal};
ghost use Rattle.image.specs.Directory.{end_of, part_at, image_refused, PartsInside, WrongImage};
ghost use Rattle.image.specs.Parts.{PartsOf};

use crate::directory::{check_pairs, length_of, offset_of};
use crate::part::{Part, Parts};
use faults::fault::Fault;

// The bytes of a part.
fn part_at(image: &[u8], pair: u32) -> &[u8]
    requires { end_of image.now pair ≤ length image.now }
    ensures { result.now ≡ part_at image.now pair }
{
    let offset = offset_of(image, pair) as usize;
    &image[offset..offset + length_of(image, pair) as usize]
}

// The four parts of an image, each with its own bytes.
#[tactic(auto, using(crate::proofs::Refusals::image_least, crate::proofs::Refusals::parts_inside))]
pub fn read(image: &[u8]) -> Result<Parts<'_>, Fault>
    ensures answer { refusal result ≡ image_refused image.now }
    ensures parts { IfOk result (λ p. PartsOf image.now p) }
    ensures inside { OnOk result (PartsInside image.now) }
    ensures least { Least (WrongImage image.now) (image_refused image.now) }
{
    check_pairs(image)?;
    Ok(Parts {
        set: Part::Set(part_at(image, 0)),
        start: Part::Start(part_at(image, 1)),
        selectors: Part::Selectors(part_at(image, 2)),
        rows: Part::Rows(part_at(image, 3)),
    })
}
