// A message that is fed in parts.
ghost use Rattle.std.specs.Prelude.{◌≡◌, ◌^◌, ◌≤◌};

use crate::midstate::Midstate;
use refusals::size::DigestSize;

// A press, a digest size, and how far a message is taken in.
// Kept: no model: the message that it was fed is no value of its fields, so what it stands for is a relation, `Stands`.
#[derive(Drop)]
pub struct Feeder<P> {
    pub(crate) press: P,
    pub(crate) size: DigestSize,
    pub(crate) state: Midstate,
    ghost few: { state.count ≤ 2 ^ 40 },
}

impl<P> Feeder<P> {
    // The size of the digests.
    pub fn size(&self) -> DigestSize
        ensures { result ≡ self.now.size }
    {
        self.size
    }
}
