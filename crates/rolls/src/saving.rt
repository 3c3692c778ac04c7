// An open roll is saved as a text, and filled from one.
ghost use Rattle.std.specs.Prelude.{◌≡◌, length};
ghost use Rattle.refusals.specs.Refusals.{outcome};
ghost use Rattle.daybook.specs.Contents.{refused_save};
ghost use Rattle.roll_contents.specs.Contents.{WellFormed};
ghost use Rattle.roll_contents.specs.Texts.{WritesText};
ghost use Rattle.rolls.specs.Texts.{Resumes};

use crate::state::OpenRoll;
use press::Press;
use refusals::refusal::Refusal;
use roll_contents::contents::RollContents;
use saved_text::snapshot::TextFault;

impl<P: Press> OpenRoll<P> {
    // Writes the saved text of the roll, and answers its length; refuses a shorter buffer. What it writes can be resumed.
    #[tactic(auto, using(roll_contents::proofs::Formed::well_formed))]
    pub fn save(&self, out: &mut [u8]) -> Result<usize, Refusal>
        ensures answer { outcome result ≡ refused_save self.now.contents (length out.old) }
        ensures text { WritesText self.now.seal self.now.contents out.old out.new result }
        ensures formed { WellFormed self.now.contents }
    {
        self.contents.write(&self.seal.chain, out)
    }

    // Fills the roll, its size too, from a saved text; refuses every text that is not that of a valid roll, by number and line.
    #[tactic(auto, using(roll_contents::proofs::Formed::well_formed))]
    pub fn resume(&mut self, text: &[u8]) -> Result<(), TextFault>
        ensures after { Resumes text.now self.old self.new result }
        ensures formed { WellFormed self.old.contents × WellFormed self.new.contents }
    {
        // A look at the contents tells the proof that they are a roll's, for a refused text.
        let _ = &self.contents;
        let resumed = RollContents::read(text)?;
        let chain = resumed.seal;
        self.seal.chain = chain;
        self.contents = resumed.contents;
        Ok(())
    }
}
