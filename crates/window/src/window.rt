// Up to 32 passages, oldest first, in the first places.
ghost use Rattle.std.specs.Prelude.{◌≡◌, ◌≤◌, length};

use crate::limits::MOST_WAITING;
use passages::passage::Passage;

// Kept: an array and a count, a plain struct in fixed memory; no heap may be used here, and callers copy a window.
// Kept: seen by `listed` and not by a model: that of a Copy type gives its fields back, and this view leaves out the places behind
// the count.
#[derive(Clone, Copy)]
pub struct Window {
    pub(crate) places: [Passage; MOST_WAITING],
    pub(crate) count: usize,
    ghost long: { length places ≡ 32 },
    ghost few: { count ≤ 32 },
}
