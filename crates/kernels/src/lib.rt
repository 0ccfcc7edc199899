// Kernels: how polynomials of a ring are kept as forms, and the plain kernel, whose form is the polynomial.
#![tactic(auto)]

pub mod kernel;
pub mod laws;
pub mod lengths;
pub mod plain;
pub mod remainders;
mod schoolbook;
