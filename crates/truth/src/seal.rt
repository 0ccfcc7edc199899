ghost use Rattle.std.specs.Prelude.{◌≤◌, length};

use crate::modular::{inner, plus, residue};
use crate::secrets::{check_sample, check_samples, check_secret, masked};
use faults::fault::{Fault, Layer};
use faults::lengths::check_length;
use set::checked::Set;

// A ciphertext of a bit under the small secret, of random words below q and a noise from -β to β.
pub fn seal(
    set: &Set,
    bit: bool,
    secret: &[i32],
    randoms: &[i32],
    noise: i32,
    out: &mut [u16],
) -> Result<(), Fault> {
    let n = set.dimension();
    let q = set.least();
    let bound = set.within.numbers.bound as i32;
    check_length(Layer::Secrets, 0, secret.len(), n)?;
    check_length(Layer::Secrets, 1, randoms.len(), n)?;
    check_length(Layer::Secrets, 3, out.len(), n + 1)?;
    check_secret(0, secret, 0..=1, set.within.numbers.ones)?;
    check_samples(1, randoms, 0..=q.get() as i32 - 1)?;
    check_sample(2, 0, noise, -bound..=bound)?;
    let message = if bit { q.get() / 4 } else { 0 };
    out[n] = (masked(message, noise, randoms, secret, q) & 0xffff) as u16;
    for (word, random) in out.iter_mut().zip(randoms) {
        *word = (residue(*random as i64, q) & 0xffff) as u16;
    }
    Ok(())
}

// The bit of a ciphertext: 0 for phases from -q/8 to q/8 - 1, and 1 from q/8 to 3q/8 - 1.
pub fn open(set: &Set, ciphertext: &[u16], secret: &[i32]) -> Result<bool, Fault> {
    let n = set.dimension();
    let modulus = set.least();
    let q = modulus.get();
    check_length(Layer::Secrets, 0, ciphertext.len(), n + 1)?;
    check_length(Layer::Secrets, 1, secret.len(), n)?;
    check_ciphertext(ciphertext, q)?;
    check_secret(1, secret, 0..=1, set.within.numbers.ones)?;
    let phase = plus(
        ciphertext[n] as u32,
        inner(&ciphertext[..n], secret, modulus),
        modulus,
    );
    let turned = plus(phase, q / 8, modulus);
    if turned < q / 4 {
        Ok(false)
    } else if turned < q / 2 {
        Ok(true)
    } else {
        Err(Fault::Phase { phase })
    }
}

// Refuses the first word that is not below q.
// Kept: registers has the same inside, for its layer and with its definition, and truth stands on no registers.
fn check_ciphertext(ciphertext: &[u16], q: u32) -> Result<(), Fault>
    requires { length ciphertext.now ≤ 513 }
{
    match ciphertext.iter().position(|word| *word as u32 >= q) {
        Some(word) => Err(Fault::CipherWord {
            word: word as u32,
            part: Layer::Secrets,
        }),
        None => Ok(()),
    }
}
