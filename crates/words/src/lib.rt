// Words of 128 bits, as the bit-sliced permutation works on them. A word's bits say what it is; how it is held stays in this crate.
#![tactic(auto)]

mod eight;
mod width;
mod word;

pub use eight::EightWords;
pub use width::Width;
pub use word::Word;
