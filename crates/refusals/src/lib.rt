// When a call is refused, by number, and the digest sizes that are accepted.
#![tactic(auto)]

pub mod refusal;
pub mod size;
mod sizing;
