// The register file: marks, and the calls on registers of n + 1 words.
#![tactic(auto)]

pub mod calls;
mod checks;
pub mod file;
mod gates;
pub mod lengths;
pub mod lists;
mod named;
pub mod op;
mod rows;
pub mod sizes;
