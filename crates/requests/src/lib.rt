// The lines that a caller writes, read as requests on a roll.
#![tactic(auto)]

pub mod reading;
pub mod request;
