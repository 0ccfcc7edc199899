// Words: moduli, gadget decomposition, rounding from one modulus to another, and work memory that is wiped.
#![tactic(auto)]

pub mod gadget;
pub mod guard;
pub mod modulus;
pub mod rounding;
