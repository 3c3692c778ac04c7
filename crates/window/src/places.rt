// The places of a window.
ghost use Rattle.std.specs.Prelude.{◌≡◌, ◌*◌, ◌≤◌, [], length, drop, sum_by, ◌==◌};
ghost use Rattle.passages.specs.Coding.{encoded};
ghost use Rattle.passages.specs.Fields.{serial_of, charged_of};
ghost use Rattle.passages.specs.Rows.{encoded_all, last_serial};
ghost use Rattle.window.specs.Listed.{listed, Pushes, Removes, Finds};

use crate::limits::MOST_WAITING;
use crate::window::Window;
use passages::passage::Passage;
use refusals::refusal::Refusal;

// What a place without a passage holds.
const BLANK: Passage = Passage {
    gate: 0,
    serial: 0,
    time: 0,
    class: 0,
    version: 0,
    full_price: 0,
    discount: 0,
    charged: 0,
    tag: [0; 32],
};

// The serial, as the bytes of the passage have it.
#[tactic(auto, using(passages::proofs::Encodings::serial_encoded))]
fn serial(passage: &Passage) -> u32
    ensures { result ≡ serial_of (encoded passage.now) }
{
    passage.serial
}

// The charged cents, as the bytes of the passage have them.
#[tactic(auto, using(passages::proofs::Encodings::charged_encoded))]
fn charged(passage: &Passage) -> u64
    ensures { result ≡ charged_of (encoded passage.now) }
{
    u64::from(passage.charged)
}

impl Window {
    // A window without a passage.
    pub fn new() -> Self
        ensures { listed result ≡ [] }
    {
        Window {
            places: [BLANK; MOST_WAITING],
            count: 0,
        }
    }

    // The passages, oldest first.
    pub fn as_slice(&self) -> &[Passage]
        ensures { encoded_all result.now ≡ listed self.now }
    {
        &self.places[..self.count]
    }

    // The passages from place `i` on, oldest first.
    pub fn tail(&self, i: usize) -> &[Passage]
        ensures { encoded_all result.now ≡ drop i (listed self.now) }
    {
        let all = self.as_slice();
        &all[i.min(all.len())..]
    }

    // How many passages there are, at most 32.
    pub fn len(&self) -> usize
        ensures value { result ≡ length (listed self.now) }
        ensures bound { result ≤ 32 }
    {
        self.count
    }

    // No place is free.
    pub fn is_full(&self) -> bool
        ensures { result ≡ (length (listed self.now) == 32) }
    {
        self.count == MOST_WAITING
    }

    // Puts a passage into the first free place; refuses it where all 32 are taken.
    pub fn push(&mut self, passage: Passage) -> Result<(), Refusal>
        ensures { Pushes (listed self.old) (encoded passage) (listed self.new) result }
    {
        if self.is_full() {
            return Err(Refusal::Full);
        }
        self.places[self.count] = passage;
        self.count += 1;
        Ok(())
    }

    // Takes out the passage at place `i`, and the later ones move down by one; answers none where no passage is there.
    pub fn remove(&mut self, i: usize) -> Option<Passage>
        ensures { Removes (listed self.old) i (listed self.new) result }
    {
        let taken = *self.as_slice().get(i)?;
        self.places[i..self.count].rotate_left(1);
        self.count -= 1;
        Some(taken)
    }

    // The place of the first passage with that serial.
    pub fn find(&self, sought: u32) -> Option<usize>
        ensures { Finds sought (listed self.now) result }
    {
        self.as_slice()
            .iter()
            .position(|passage| serial(passage) == sought)
    }

    // The charged cents of all its passages.
    pub fn cents(&self) -> u64
        ensures value { result ≡ sum_by charged_of (listed self.now) }
        ensures bound { result ≤ 32 * 4294967295 }
    {
        self.as_slice().iter().map(charged).sum()
    }

    // The serial of the newest passage, or `other` where there is none.
    pub fn last_serial(&self, other: u32) -> u32
        ensures { result ≡ last_serial other (listed self.now) }
    {
        self.as_slice().last().map_or(other, serial)
    }
}
