// JH: digests over the JH press, of a whole message in one call and of a message fed in parts.
#![tactic(auto)]

pub mod feeder;
mod feeding;
pub mod whole;
