// The fields of a line of text: cuts at a byte, decimal numbers and hexadecimal bytes, read and written.
#![tactic(auto)]

pub mod cuts;
pub mod decimals;
pub mod faults;
pub mod hex;
pub mod text;
