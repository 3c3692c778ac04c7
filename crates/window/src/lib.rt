// The window of a roll: the passages that are not shipped yet.
#![tactic(auto)]

pub mod limits;
mod places;
pub mod window;
