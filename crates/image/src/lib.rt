// Key images: their numbers, their directory and their parts.
#![tactic(auto)]

pub mod bytes;
pub mod directory;
pub mod part;
pub mod read;
