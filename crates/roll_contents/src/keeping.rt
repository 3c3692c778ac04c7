// The tests that a call makes on the contents of a roll, and what it does to them.
ghost use Rattle.std.specs.Prelude.{◌≡◌, ◌≤◌, drop, IfOk};
ghost use Rattle.refusals.specs.Refusals.{outcome};
ghost use Rattle.refusals.specs.Sizes.{bits_in};
ghost use Rattle.passages.specs.Rows.{encoded_all};
ghost use Rattle.daybook.specs.Contents.{nothing_yet, refused_pass, refused_cancel, standing_count};
ghost use Rattle.window.specs.Listed.{Found};
ghost use Rattle.roll_contents.specs.Contents.{contents_of, total_of, Admits, Enters, less_one, Sends};

use crate::contents::{RollContents, Total};
use crate::shipped::Shipped;
use passages::passage::Passage;
use refusals::refusal::Refusal;
use refusals::size::DigestSize;
use window::limits::MOST_STANDING;
use window::window::Window;

impl RollContents {
    // The contents of a new roll of that digest size.
    pub fn new(size: DigestSize) -> Self
        ensures { contents_of result ≡ nothing_yet (bits_in size) }
    {
        RollContents {
            size,
            window: Window::new(),
            shipped: Shipped::none(),
        }
    }

    // The digest size.
    pub fn size(&self) -> DigestSize
        ensures { bits_in result ≡ (contents_of self.now).size }
    {
        self.size
    }

    // The passages of the window from place `i` on, oldest first.
    pub fn tail(&self, i: usize) -> &[Passage]
        ensures { encoded_all result.now ≡ drop i (contents_of self.now).window }
    {
        self.window.tail(i)
    }

    // How many passages stand, shipped ones included.
    pub fn standing(&self) -> u32
        ensures value { result ≡ standing_count (contents_of self.now) }
        ensures bound { result ≤ 1000000 }
    {
        self.shipped.count + self.window.len() as u32
    }

    // The passage in these bytes, if it may be passed now.
    fn admit(&self, bytes: &[u8]) -> Result<Passage, Refusal>
        ensures answer { outcome result ≡ refused_pass (contents_of self.now) bytes.now }
        ensures taken { IfOk result (λ p. Admits (contents_of self.now) bytes.now p) }
    {
        let block = bytes.as_array().ok_or(Refusal::Length)?;
        if self.window.is_full() {
            return Err(Refusal::Full);
        }
        if self.standing() >= MOST_STANDING {
            return Err(Refusal::Standing);
        }
        let last = self.window.last_serial(self.shipped.last);
        Passage::decode_after(last, block)
    }

    // The place in the window of the passage to cancel; refuses a serial that was shipped, and one that the window does not hold.
    pub fn place_of(&self, sought: u32) -> Result<usize, Refusal>
        ensures answer { outcome result ≡ refused_cancel (contents_of self.now) sought }
        ensures place { IfOk result (λ i. Found sought (contents_of self.now).window i) }
    {
        if self.shipped.count > 0 && sought <= self.shipped.last {
            return Err(Refusal::Shipped);
        }
        self.window.find(sought).ok_or(Refusal::Unknown)
    }

    // Puts the passage in these bytes at the end of the window; refuses bytes that are not 64, a full window, 1,000,000 standing
    // passages, and a serial, form or prices that do not fit.
    pub fn enter(&mut self, bytes: &[u8]) -> Result<Passage, Refusal>
        ensures answer { outcome result ≡ refused_pass (contents_of self.old) bytes.now }
        ensures after { Enters (contents_of self.old) bytes.now (contents_of self.new) result }
    {
        let passage = self.admit(bytes)?;
        self.window.push(passage)?;
        Ok(passage)
    }

    // Takes the passage at place `i` out of the window, if one is there.
    pub fn take_out(&mut self, i: usize)
        ensures { contents_of self.new ≡ less_one (contents_of self.old) i }
    {
        let _ = self.window.remove(i);
    }

    // Takes the oldest passage out of the window and counts it as shipped; answers none where the window is empty.
    pub fn take_oldest(&mut self) -> Option<Passage>
        ensures { Sends (contents_of self.old) (contents_of self.new) result }
    {
        let passage = self.window.remove(0)?;
        self.shipped.take_one(&passage);
        Some(passage)
    }

    // The charged cents and the count of all standing passages.
    pub fn total(&self) -> Total
        ensures { result ≡ total_of (contents_of self.now) }
    {
        Total {
            cents: self.shipped.cents + self.window.cents(),
            count: self.standing(),
        }
    }
}
