// Rolls: sealed rows of passages, over any press.
#![tactic(auto)]

mod closed;
mod open;
mod saving;
mod seal;
pub mod state;
