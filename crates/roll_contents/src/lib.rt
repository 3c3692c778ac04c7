// What a roll holds besides its press and its seal, and what each call makes of it.
#![tactic(auto)]

pub mod contents;
mod keeping;
pub mod saving;
mod shipped;
