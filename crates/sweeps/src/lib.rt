// Sweeps: blind rotation of an accumulator by exponents under selectors.
#![tactic(auto)]

pub mod check;
mod digits;
pub mod external;
mod held;
pub mod laws;
mod lengths;
mod messages;
pub mod paired;
mod products;
mod rotation;
pub mod single;
pub mod sweep;
pub mod turn;
mod walk;
