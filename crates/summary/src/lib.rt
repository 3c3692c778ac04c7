// The four digests of one message, as lines of text.
#![tactic(auto)]

mod feeders;
pub mod summary;
mod writing;
