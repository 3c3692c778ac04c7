// The calls on a closed roll.
ghost use Rattle.std.specs.Prelude.{◌≡◌, true, length};
ghost use Rattle.byte_strings.specs.Bytes.{Bytes};
ghost use Rattle.refusals.specs.Refusals.{outcome, buffer_refusal};
ghost use Rattle.refusals.specs.Sizes.{is_size};
ghost use Rattle.daybook.specs.Contents.{standing_count};
ghost use Rattle.daybook.specs.States.{after_reopen};
ghost use Rattle.roll_contents.specs.Contents.{total_of, WellFormed};
ghost use Rattle.rolls.specs.Buffers.{Writes};
ghost use Rattle.rolls.specs.Rolls.{digest_length, digest_in};

use crate::state::{ClosedRoll, OpenRoll};
use press::Press;
use refusals::refusal::Refusal;
use roll_contents::contents::Total;

impl<P: Press> ClosedRoll<P> {
    // Writes the digest, the last size / 8 bytes of the closed seal; refuses a shorter buffer.
    #[tactic(auto, using(roll_contents::proofs::Texts::sized, roll_contents::proofs::Formed::well_formed))]
    pub fn digest(&self, out: &mut [u8]) -> Result<(), Refusal>
        ensures answer { outcome result ≡ buffer_refusal (length out.old) (digest_length self.now) }
        ensures written { Writes result (digest_length self.now) (digest_in self.now) out.old out.new }
        ensures size { is_size self.now.contents.size ≡ true }
        ensures formed { WellFormed self.now.contents }
    {
        self.seal.write(self.contents.size().bytes(), out)
    }

    // The charged cents and the count of all standing passages, shipped ones included.
    // Kept: the two rolls are two types, and each asks its contents in one line.
    #[tactic(auto, using(roll_contents::proofs::Formed::well_formed))]
    pub fn total(&self) -> Total
        ensures value { result ≡ total_of self.now.contents }
        ensures formed { WellFormed self.now.contents }
    {
        self.contents.total()
    }

    // Undoes the close: the ending block is wound back.
    #[tactic(auto, using(roll_contents::proofs::Formed::well_formed))]
    pub fn reopen(self) -> OpenRoll<P>
        ensures block { Bytes 64 ((P.means self.press).ends (standing_count self.contents)) }
        ensures after { result ≡ after_reopen P.means P.backs self }
        ensures formed { WellFormed self.contents }
    {
        let ClosedRoll { mut seal, contents } = self;
        let last = seal.press.ending(contents.standing());
        seal.back(&last);
        OpenRoll { seal, contents }
    }
}
