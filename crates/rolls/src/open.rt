// The calls on an open roll.
ghost use Rattle.std.specs.Prelude.{◌≡◌, length, OnOk};
ghost use Rattle.byte_strings.specs.Bytes.{Bytes};
ghost use Rattle.refusals.specs.Refusals.{outcome, buffer_refusal};
ghost use Rattle.refusals.specs.Sizes.{bits_in};
ghost use Rattle.daybook.specs.Contents.{refused_pass, refused_cancel, refused_ship, oldest};
ghost use Rattle.daybook.specs.States.{after_open, after_pass, after_cancel, after_ship, after_close, Leaves};
ghost use Rattle.roll_contents.specs.Contents.{total_of, WellFormed};
ghost use Rattle.rolls.specs.Buffers.{Writes};
ghost use Rattle.rolls.specs.Rolls.{Opens};

use crate::seal::Seal;
use crate::state::{ClosedRoll, OpenRoll};
use press::{Block, Declined, Press};
use refusals::refusal::Refusal;
use refusals::size::DigestSize;
use roll_contents::contents::{RollContents, Total};

impl<P: Press> OpenRoll<P> {
    // A new roll of that digest size.
    pub fn new(press: P, size: DigestSize) -> OpenRoll<P>
        ensures { result ≡ after_open P.means press (bits_in size) }
    {
        OpenRoll {
            seal: Seal::open(press, size),
            contents: RollContents::new(size),
        }
    }

    // Opens a roll of that digest size, in bits; refuses a size that is none of the four, and hands the press back.
    pub fn open(press: P, size: u32) -> Result<OpenRoll<P>, Declined<P>>
        ensures { Opens P.means press size result }
    {
        // Kept: each side moves the press, which a closure for `map_err` would take from the other.
        match DigestSize::try_from(size) {
            Ok(size) => Ok(OpenRoll::new(press, size)),
            Err(refusal) => Err(Declined { press, refusal }),
        }
    }

    // Passes the passage in these bytes: it joins the window, and the seal steps with it. Refuses bytes that are not 64, a
    // full window, 1,000,000 standing passages, and a serial, form or prices that do not fit.
    #[tactic(auto, using(roll_contents::proofs::Formed::well_formed))]
    pub fn pass(&mut self, passage: &[u8]) -> Result<(), Refusal>
        ensures answer { outcome result ≡ refused_pass self.old.contents passage.now }
        ensures block { OnOk result (Bytes 64 passage.now) }
        ensures after { Leaves result self.old self.new (after_pass P.means self.old passage.now) }
        ensures formed { WellFormed self.old.contents × WellFormed self.new.contents }
    {
        let passage = self.contents.enter(passage)?;
        self.seal.step(&Block::from(&passage));
        Ok(())
    }

    // Cancels the passage in the window with that serial: the seal is wound back through it and the later ones, newest first,
    // and steps through the later ones again. Refuses a serial that was shipped, and one that the window does not hold.
    #[tactic(auto, using(roll_contents::proofs::Formed::well_formed))]
    pub fn cancel(&mut self, serial: u32) -> Result<(), Refusal>
        ensures answer { outcome result ≡ refused_cancel self.old.contents serial }
        ensures after { Leaves result self.old self.new (after_cancel P.means P.backs self.old serial) }
        ensures formed { WellFormed self.old.contents × WellFormed self.new.contents }
    {
        let i = self.contents.place_of(serial)?;
        self.seal.unwind(self.contents.tail(i));
        self.seal.advance(self.contents.tail(i + 1));
        self.contents.take_out(i);
        Ok(())
    }

    // Ships the oldest passage of the window: writes its 64 bytes and frees its place; it still stands. Refuses a buffer of
    // less than 64 bytes, and an empty window.
    #[tactic(auto, using(roll_contents::proofs::Formed::well_formed))]
    pub fn ship(&mut self, out: &mut [u8]) -> Result<(), Refusal>
        ensures answer { outcome result ≡ refused_ship self.old.contents (length out.old) }
        ensures after { Leaves result self.old self.new (after_ship self.old) }
        ensures written { Writes result 64 (oldest self.old.contents) out.old out.new }
        ensures formed { WellFormed self.old.contents × WellFormed self.new.contents }
    {
        // A look at the contents tells the proof that they are a roll's, for the refusal below.
        let _ = &self.contents;
        if out.len() < 64 {
            return Err(Refusal::Buffer);
        }
        let passage = self.contents.take_oldest().ok_or(Refusal::Empty)?;
        out[..64].copy_from_slice(&Block::from(&passage));
        Ok(())
    }

    // Closes the roll: the seal steps with the press's ending for the count of standing passages.
    #[tactic(auto, using(roll_contents::proofs::Formed::well_formed))]
    pub fn close(self) -> ClosedRoll<P>
        ensures after { result ≡ after_close P.means self }
        ensures formed { WellFormed self.contents }
    {
        let OpenRoll { mut seal, contents } = self;
        let last = seal.press.ending(contents.standing());
        seal.step(&last);
        ClosedRoll { seal, contents }
    }

    // Writes the 128 bytes of the seal; refuses a shorter buffer.
    #[tactic(auto, using(roll_contents::proofs::Formed::well_formed))]
    pub fn seal(&self, out: &mut [u8]) -> Result<(), Refusal>
        ensures answer { outcome result ≡ buffer_refusal (length out.old) 128 }
        ensures written { Writes result 128 self.now.seal out.old out.new }
        ensures formed { WellFormed self.now.contents }
    {
        self.seal.write(128, out)
    }

    // The charged cents and the count of all standing passages, shipped ones included.
    #[tactic(auto, using(roll_contents::proofs::Formed::well_formed))]
    pub fn total(&self) -> Total
        ensures value { result ≡ total_of self.now.contents }
        ensures formed { WellFormed self.now.contents }
    {
        self.contents.total()
    }

    // The digest size.
    #[tactic(auto, using(roll_contents::proofs::Formed::well_formed))]
    pub fn size(&self) -> DigestSize
        ensures value { bits_in result ≡ self.now.contents.size }
        ensures formed { WellFormed self.now.contents }
    {
        self.contents.size()
    }

    // Lets the roll go, and hands its press back.
    #[tactic(auto, using(roll_contents::proofs::Formed::well_formed))]
    pub fn into_press(self) -> P
        ensures press { result ≡ self.press }
        ensures formed { WellFormed self.contents }
    {
        self.seal.press
    }
}
