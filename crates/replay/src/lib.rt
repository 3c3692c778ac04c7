// A row of requests made on a new roll, one after the other.
#![tactic(auto)]

pub mod replay;
pub mod request;
pub mod roll;
pub mod turn;
