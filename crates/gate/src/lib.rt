// One gate: two ciphertexts are combined, the result is refreshed by blind rotation and switched back to the small secret.
#![tactic(auto)]

mod beginning;
pub mod bootstrap;
pub mod in_place;
pub mod inverse;
pub mod keys;
pub mod laws;
mod lengths;
pub mod letter;
mod parts;
mod refresh;
pub mod sizes;
pub mod stages;
mod switching;
mod vectors;
