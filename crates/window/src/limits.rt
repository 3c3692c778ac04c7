// How many passages a roll takes.

// At most so many are in its window.
pub const MOST_WAITING: usize = 32;

// At most so many stand, shipped ones included.
pub const MOST_STANDING: u32 = 1_000_000;
