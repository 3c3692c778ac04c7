// What a saved text says, and why one is refused.
use press::Chain;
use refusals::refusal::Refusal;
use refusals::size::DigestSize;
use window::window::Window;

// What a saved text says of a roll.
#[derive(Clone, Copy)]
pub struct Snapshot {
    // The digest size.
    pub size: DigestSize,
    // Of the passages shipped: how many, the serial of the last (0 where there is none), their cents.
    pub shipped: u32,
    pub last: u32,
    pub cents: u64,
    // The seal.
    pub chain: Chain,
    // The passages that are not shipped.
    pub window: Window,
}

// A refusal of a saved text: why, and the line that is wrong, counted from 1.
// Kept: a type of its own, as for a field and for a line: each layer answers its own fault, and `?` carries it on.
#[derive(Clone, Copy, Debug, PartialEq, Eq)]
pub struct TextFault {
    pub refusal: Refusal,
    pub line: u32,
}
