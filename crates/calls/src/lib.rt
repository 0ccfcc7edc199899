// Lists of calls on a register file: orders, runs, and what holds of all runs.
#![tactic(auto)]

mod act;
pub mod answer;
pub mod call;
mod checks;
pub mod laws;
mod lend;
pub mod order;
pub mod orders;
pub mod run;
mod serve;
