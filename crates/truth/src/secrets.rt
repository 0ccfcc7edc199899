ghost use Rattle.std.specs.Prelude.{◌≡◌, length};

use crate::modular::{inner, minus, plus, residue};
use faults::fault::Fault;
use std::ops::RangeInclusive;
use words::modulus::Modulus;

// Refuses a secret with an entry outside its bounds, and then one with too many entries that are not 0.
pub fn check_secret(
    list: u32,
    secret: &[i32],
    bounds: RangeInclusive<i32>,
    weight: u32,
) -> Result<(), Fault> {
    if let Some(entry) = secret.iter().position(|entry| !bounds.contains(entry)) {
        return Err(Fault::Secret {
            list,
            entry: entry as u64,
        });
    }
    if secret.iter().filter(|entry| **entry != 0).count() > weight as usize {
        return Err(Fault::Secret {
            list,
            entry: secret.len() as u64,
        });
    }
    Ok(())
}

// Refuses a sample outside its bounds.
pub fn check_sample(
    list: u32,
    entry: usize,
    sample: i32,
    bounds: RangeInclusive<i32>,
) -> Result<(), Fault> {
    if !bounds.contains(&sample) {
        return Err(Fault::Sample {
            list,
            entry: entry as u64,
        });
    }
    Ok(())
}

// Refuses the first sample of a list outside its bounds.
pub fn check_samples(list: u32, samples: &[i32], bounds: RangeInclusive<i32>) -> Result<(), Fault> {
    match samples.iter().position(|sample| !bounds.contains(sample)) {
        Some(entry) => Err(Fault::Sample {
            list,
            entry: entry as u64,
        }),
        None => Ok(()),
    }
}

// The last word of a ciphertext: the message and the noise, less the sum of the random words times the secret.
pub fn masked(message: u32, noise: i32, randoms: &[i32], secret: &[i32], modulus: Modulus) -> u32
    requires { length randoms.now ≡ length secret.now }
{
    let noisy = plus(message, residue(noise as i64, modulus), modulus);
    minus(noisy, inner(randoms, secret, modulus), modulus)
}
