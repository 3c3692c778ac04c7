// The answers to requests.
use press::Block;
use refusals::refusal::Refusal;
use refusals::size::DigestSize;

// The answer to a request, as a line tells it.
// Kept: a refusal is one of the five answers that the protocol has; as a Result it would stand apart from the other four, which
// are four kinds of success and need an enum of their own all the same.
#[derive(Clone, Copy, Debug, PartialEq, Eq)]
pub enum LineAnswer {
    // The call was made.
    Done,
    // The call was refused.
    Refused(Refusal),
    // The passage that was shipped.
    Shipped(Block),
    // The digest of the roll that was closed: as many of the first bytes as its size has.
    Closed(DigestSize, Block),
    // The charged cents and the count of all standing passages.
    Total(u64, u32),
}
