// What a caller's requests are answered, and the lines that tell it.
#![tactic(auto)]

pub mod answer;
mod writing;
