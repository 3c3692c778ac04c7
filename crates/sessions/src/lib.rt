// A caller's requests, answered one after the other on one roll.
#![tactic(auto)]

mod answering;
pub mod session;
mod sized;
pub mod state;
