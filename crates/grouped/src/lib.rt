// The JH permutation on elements of four bits, one to a byte: E8 and its inverse.
#![tactic(auto)]

mod constants;
mod e8;
mod elements;
mod grouping;
mod layers;
mod tables;

pub use constants::round_constant;
pub use e8::Grouped;
