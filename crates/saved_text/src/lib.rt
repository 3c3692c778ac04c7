// The saved text of a roll: read back line by line, and written.
#![tactic(auto)]

mod head;
mod line;
pub mod reading;
pub mod snapshot;
mod writing;
