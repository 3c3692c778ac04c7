// The contents of a roll and its seal are saved as a text, and read from one.
ghost use Rattle.std.specs.Prelude.{◌≡◌, length};
ghost use Rattle.refusals.specs.Refusals.{outcome};
ghost use Rattle.daybook.specs.Contents.{refused_save};
ghost use Rattle.text_laws.specs.Valid.{Valid};
ghost use Rattle.saved_text.specs.Snapshots.{saved_in};
ghost use Rattle.roll_contents.specs.Contents.{contents_of};
ghost use Rattle.roll_contents.specs.Texts.{contents_in, WritesText, ReadsText};

use crate::contents::RollContents;
use crate::shipped::Shipped;
use press::Chain;
use refusals::refusal::Refusal;
use saved_text::reading::read;
use saved_text::snapshot::{Snapshot, TextFault};

// The seal and the contents that a saved text tells.
#[derive(Clone, Copy)]
pub struct Resumed {
    pub seal: Chain,
    pub contents: RollContents,
}

// The contents that the text of a valid roll tells.
// Kept: field by field, since a snapshot may be of no valid roll, and the contents of a roll are of one by their type.
fn contents_in(snapshot: &Snapshot) -> RollContents
    requires { Valid (saved_in snapshot.now) }
    ensures { contents_of result ≡ contents_in (saved_in snapshot.now) }
{
    RollContents {
        size: snapshot.size,
        window: snapshot.window,
        shipped: Shipped {
            count: snapshot.shipped,
            last: snapshot.last,
            cents: snapshot.cents,
        },
    }
}

impl RollContents {
    // Writes the saved text of the roll with that seal, and answers its length; refuses a shorter buffer.
    pub fn write(&self, seal: &Chain, out: &mut [u8]) -> Result<usize, Refusal>
        ensures answer { outcome result ≡ refused_save (contents_of self.now) (length out.old) }
        ensures text { WritesText seal.now (contents_of self.now) out.old out.new result }
    {
        let snapshot = Snapshot {
            size: self.size,
            shipped: self.shipped.count,
            last: self.shipped.last,
            cents: self.shipped.cents,
            chain: *seal,
            window: self.window,
        };
        snapshot.write(out)
    }

    // What a saved text tells; refuses every text that is not that of a valid roll, by number and line.
    pub fn read(text: &[u8]) -> Result<Resumed, TextFault>
        ensures { ReadsText text.now result }
    {
        let snapshot = read(text)?;
        let contents = contents_in(&snapshot);
        let seal = snapshot.chain;
        Ok(Resumed { seal, contents })
    }
}
