// Why a call is refused: the sixteen causes, their numbers, places and layers.
#![tactic(auto)]

pub mod fault;
pub mod lengths;
