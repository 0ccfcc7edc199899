// Checked rings: words modulo an odd number with X^N = -1, and the tables of their transform.
#![tactic(auto)]

mod build;
pub mod check;
pub mod numbers;
pub mod ring;
mod tables;
