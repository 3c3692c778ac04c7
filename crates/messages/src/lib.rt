// Digests of messages over any press: of a whole message in one call, and of a message fed in parts.
#![tactic(auto)]

mod closing;
pub mod feeder;
mod feeding;
mod midstate;
mod padding;
mod taking;
pub mod whole;
