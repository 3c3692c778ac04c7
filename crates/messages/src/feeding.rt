// A feeder is started, fed bytes, and finished.
ghost use Rattle.std.specs.Prelude.{◌≡◌, ◌/◌, length, is_ok, MatchResult};
ghost use Rattle.std.specs.List.{flat_map};
ghost use Rattle.refusals.specs.Refusals.{outcome, feed_refusal, buffer_refusal};
ghost use Rattle.refusals.specs.Sizes.{bits_in, is_size};
ghost use Rattle.messages.specs.Stands.{Starts, Feeds, Writes};

use crate::feeder::Feeder;
use crate::midstate::Midstate;
use crate::taking::room_left;
use crate::whole::MOST_BYTES;
use press::{Declined, Press};
use refusals::refusal::Refusal;
use refusals::size::DigestSize;

impl<P: Press> Feeder<P> {
    // A feeder of the empty message, for digests of the size.
    pub fn new(press: P, size: DigestSize) -> Self
        ensures { Starts P.means press size result }
    {
        let state = Midstate::new(press.opening(size));
        Feeder { press, size, state }
    }

    // A feeder of the empty message, for digests of `size` bits; refuses a size that is none of the four, and hands the press back.
    pub fn start(press: P, size: u32) -> Result<Self, Declined<P>>
        ensures answer { is_ok result ≡ is_size size }
        ensures after { MatchResult result (λ f. Starts P.means press f.size f × (bits_in f.size ≡ size)) (λ d. (d.press ≡ press) × (d.refusal ≡ Refusal.Size)) }
    {
        // Kept: each side moves the press, which a closure for `map_err` would take from the other.
        match DigestSize::try_from(size) {
            Ok(size) => Ok(Feeder::new(press, size)),
            Err(refusal) => Err(Declined { press, refusal }),
        }
    }

    // Puts bytes at the end of the message; refuses, and leaves the feeder as it is, where the message would pass 2^40 bytes.
    pub fn feed(&mut self, bytes: &[u8]) -> Result<(), Refusal>
        ensures answer { outcome result ≡ feed_refusal self.old.state.count (length bytes.now) }
        ensures after { MatchResult result (λ _. Feeds P.means bytes.now self.old self.new) (λ _. self.new ≡ self.old) }
    {
        if bytes.len() as u64 > MOST_BYTES - self.state.count {
            return Err(Refusal::Bytes);
        }
        self.state.take_all(&self.press, bytes);
        Ok(())
    }

    // Puts parts at the end of the message, one after the other, as if they were fed joined;
    // refuses, and leaves the feeder as it is, where the message would pass 2^40 bytes.
    pub fn feed_all(&mut self, parts: &[&[u8]]) -> Result<(), Refusal>
        ensures answer { outcome result ≡ feed_refusal self.old.state.count (length (flat_map (λ x. x.now) parts.now)) }
        ensures after { MatchResult result (λ _. Feeds P.means (flat_map (λ x. x.now) parts.now) self.old self.new) (λ _. self.new ≡ self.old) }
    {
        room_left(parts, MOST_BYTES - self.state.count).ok_or(Refusal::Bytes)?;
        self.state.take_parts(&self.press, parts);
        Ok(())
    }

    // Writes the digest of the message to the front of the buffer, leaves the rest of the buffer, and goes back to the empty message;
    // refuses a buffer that is too short, and leaves all as it is.
    pub fn finish(&mut self, out: &mut [u8]) -> Result<(), Refusal>
        ensures answer { outcome result ≡ buffer_refusal (length out.old) (bits_in self.old.size / 8) }
        ensures written { MatchResult result (λ _. Writes P.means self.old out.old out.new) (λ _. out.new ≡ out.old) }
        ensures after { MatchResult result (λ _. Starts P.means self.old.press self.old.size self.new) (λ _. self.new ≡ self.old) }
    {
        if out.len() < self.size.bytes() {
            return Err(Refusal::Buffer);
        }
        let fresh = Midstate::new(self.press.opening(self.size));
        let mut state = self.state;
        self.state = fresh;
        let bits = 8 * state.count;
        state.end(&self.press, 0x80, bits);
        state.write_tail(self.size, out);
        Ok(())
    }
}
