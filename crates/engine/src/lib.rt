// An engine: a kernel, a sweep and a set checked for it, and the loading of its keys from an image.
#![tactic(auto)]

pub mod engine;
pub mod inspect;
mod lengths;
pub mod load;
mod parts;
mod turning;
