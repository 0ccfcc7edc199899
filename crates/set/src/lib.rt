// The sixteen numbers of a set: within their limits, and checked for a stated noise.
#![tactic(auto)]

pub mod accessors;
pub mod check;
pub mod checked;
mod close;
pub mod noises;
pub mod numbers;
pub mod sizes;
pub mod steps;
pub mod within;
