// The transform kernel: a form is the values of a polynomial at the odd powers of the ring's root.
#![tactic(auto)]

mod field;
pub mod laws;
mod pointwise;
mod roots;
mod stages;
pub mod transform;
