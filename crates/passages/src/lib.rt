// Passages of one toll gate: the struct, its 64 bytes, and when one may stand after another.
#![tactic(auto)]

pub mod coding;
pub mod passage;
