// What is asked of a roll, what it answers, and what it tells at the end.
use press::{Block, Chain};
use refusals::refusal::Refusal;
use roll_contents::contents::Total;

// A call, with what it is given: the bytes of a passage, a serial, the length of a buffer.
#[derive(Clone, Copy, PartialEq, Eq, Debug)]
pub enum Request<'a> {
    Close,
    Reopen,
    Pass(&'a [u8]),
    Cancel(u32),
    Ship(usize),
    Save(usize),
    // Takes the text that the save just before wrote into a new roll over the same press.
    Resume,
}

// What a request is answered.
// Kept: a refusal is one of the five answers that a request can get; as a Result it would stand apart from the other four, which
// have no one kind of success and need an enum of their own all the same.
#[derive(Clone, Copy, PartialEq, Eq, Debug)]
pub enum Answer {
    // The state of the roll does not allow the call.
    Skipped,
    Done,
    // The call is refused.
    Refused(Refusal),
    // The passage that was shipped.
    Shipped(Block),
    // The length of the saved text.
    Wrote(usize),
}

// What a roll tells at the end.
#[derive(Clone, Copy, PartialEq, Eq, Debug)]
pub enum Reading {
    // An open roll: its total and its seal.
    Sealed(Total, Chain),
    // A closed roll: its total and its digest, with zeros behind it.
    Digested(Total, [u8; 64]),
}
