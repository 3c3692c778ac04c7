// The functions that the benchmark calls from C.
#![tactic(auto)]

mod digests;
mod states;

pub use digests::{gobutlin_jh, gobutlin_jh_grouped};
pub use states::{gobutlin_back, gobutlin_forth};
