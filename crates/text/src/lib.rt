// Texts as bytes: their parts, and the numbers that they spell.
#![tactic(auto)]

pub mod decimals;
pub mod parts;
pub mod reals;
