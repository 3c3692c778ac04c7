// What a line asks.
use press::Block;

// The press that seals a roll.
#[derive(Clone, Copy, Debug, PartialEq, Eq)]
pub enum PressName {
    Jh,
    Drill,
}

// A request, as a line asks it.
#[derive(Clone, Copy, Debug, PartialEq, Eq)]
pub enum LineRequest {
    // A new roll over that press, of so many bits.
    Open(PressName, u64),
    Pass(Block),
    Cancel(u32),
    Ship,
    Close,
    Reopen,
    Total,
}
