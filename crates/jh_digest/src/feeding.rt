// A feeder over the JH press is started, fed bytes, and finished.
ghost use Rattle.std.specs.Prelude.{◌≡◌, ◌/◌, length, is_ok, MatchResult, OnOk};
ghost use Rattle.std.specs.List.{flat_map};
ghost use Rattle.jh.specs.Jh.{jh, jh_over, MeansE8};
ghost use Rattle.refusals.specs.Refusals.{outcome, feed_refusal, buffer_refusal};
ghost use Rattle.refusals.specs.Sizes.{bits_in, is_size};
ghost use Rattle.jh_digest.specs.Stands.{Starts, Feeds, Writes};

use crate::feeder::JhFeeder;
use jh_press::JhPress;
use messages::feeder::Feeder;
use permutation::Permutation;
use press::Declined;
use refusals::refusal::Refusal;
use refusals::size::DigestSize;

impl<P: Permutation> JhFeeder<P> {
    // A feeder of the empty message, for digests of the size.
    pub fn new(press: JhPress<P>, size: DigestSize) -> Self
        ensures { Starts P.image press size result }
    {
        JhFeeder {
            feeder: Feeder::new(press, size),
        }
    }

    // A feeder of the empty message, for digests of `size` bits; refuses a size that is none of the four, and hands the press back.
    pub fn start(press: JhPress<P>, size: u32) -> Result<Self, Declined<JhPress<P>>>
        ensures answer { is_ok result ≡ is_size size }
        ensures after { MatchResult result (λ f. Starts P.image press f.feeder.size f × (bits_in f.feeder.size ≡ size)) (λ d. (d.press ≡ press) × (d.refusal ≡ Refusal.Size)) }
    {
        Ok(JhFeeder {
            feeder: Feeder::start(press, size)?,
        })
    }

    // Puts bytes at the end of the message; refuses, and leaves the feeder as it is, where the message would pass 2^40 bytes.
    pub fn feed(&mut self, bytes: &[u8]) -> Result<(), Refusal>
        ensures answer { outcome result ≡ feed_refusal self.old.feeder.state.count (length bytes.now) }
        ensures after { MatchResult result (λ _. Feeds P.image bytes.now self.old self.new) (λ _. self.new ≡ self.old) }
    {
        self.feeder.feed(bytes)
    }

    // Puts parts at the end of the message, one after the other, as if they were fed joined;
    // refuses, and leaves the feeder as it is, where the message would pass 2^40 bytes.
    pub fn feed_all(&mut self, parts: &[&[u8]]) -> Result<(), Refusal>
        ensures answer { outcome result ≡ feed_refusal self.old.feeder.state.count (length (flat_map (λ x. x.now) parts.now)) }
        ensures after { MatchResult result (λ _. Feeds P.image (flat_map (λ x. x.now) parts.now) self.old self.new) (λ _. self.new ≡ self.old) }
    {
        self.feeder.feed_all(parts)
    }

    // Writes the digest of the message to the front of the buffer, leaves the rest of the buffer, and goes back to the empty message;
    // over a permutation that means E8, the digest is JH's. Refuses a buffer that is too short, and leaves all as it is.
    pub fn finish(&mut self, out: &mut [u8]) -> Result<(), Refusal>
        ensures answer { outcome result ≡ buffer_refusal (length out.old) (bits_in self.old.feeder.size / 8) }
        ensures written { MatchResult result (λ _. Writes P.image (jh_over (P.image self.old.feeder.press.permutation)) self.old out.old out.new) (λ _. out.new ≡ out.old) }
        ensures jh { MeansE8 (P.image self.old.feeder.press.permutation) → OnOk result (Writes P.image jh self.old out.old out.new) }
        ensures after { MatchResult result (λ _. Starts P.image self.old.feeder.press self.old.feeder.size self.new) (λ _. self.new ≡ self.old) }
    {
        self.feeder.finish(out)
    }
}
