// How far a message is taken in.
use press::{Block, Chain};

// The chain value behind the whole blocks, the bytes behind the last whole block with zeros up to 64, and the count of all bytes.
// Kept: fixed memory, and a step takes a whole block, so the partial block is one; the count tells how far it is filled.
#[derive(Clone, Copy)]
pub struct Midstate {
    pub chain: Chain,
    pub partial: Block,
    pub count: u64,
}
