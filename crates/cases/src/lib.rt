// The worked cases, which the definitions satisfy, and tests on examples.
#![tactic(auto)]

pub mod worked;
