// Four feeders that are fed one message.
ghost use Rattle.std.specs.Prelude.{ℕ, ◌+◌, ◌^◌, ◌<◌, ◌≤◌, List, [], ◌++◌, length, MatchResult};
ghost use Rattle.jh.specs.Jh.{jh_over};
ghost use Rattle.refusals.specs.Sizes.{bits_in};
ghost use Rattle.refusals.specs.declared.size.DigestSize.{DigestSize as Size};
ghost use Rattle.summary.specs.Fed.{Holds, Four};
ghost use Rattle.summary.specs.Report.{Adds, AddsLines};

use fields::text::Text;
use jh_digest::feeder::JhFeeder;
use jh_press::JhPress;
use permutation::Permutation;
use refusals::refusal::Refusal;
use refusals::size::DigestSize;

// A feeder for each digest size, all fed the same bytes.
// Kept: four named fields. With an array of four feeders, gone through by `iter_mut`, each method is proved, but `Write` for `Summary` is not:
// its `write-tells` stays open, since calls through a trait want no array of a type parameter in a generic struct.
#[derive(Drop)]
pub struct Feeders<P> {
    pub(crate) d224: JhFeeder<P>,
    pub(crate) d256: JhFeeder<P>,
    pub(crate) d384: JhFeeder<P>,
    pub(crate) d512: JhFeeder<P>,
}

impl<P: Permutation + Copy> Feeders<P> {
    // The feeders of the empty message.
    pub(crate) fn new(permutation: P) -> Self
        ensures { Four P.image permutation [] result }
    {
        let press = JhPress::new(permutation);
        Feeders {
            d224: JhFeeder::new(press, DigestSize::D224),
            d256: JhFeeder::new(press, DigestSize::D256),
            d384: JhFeeder::new(press, DigestSize::D384),
            d512: JhFeeder::new(press, DigestSize::D512),
        }
    }

    // Puts bytes at the end of the message; refuses where it would pass 2^40 bytes. All four have taken in as much, so they refuse together.
    pub(crate) fn feed(&mut self, bytes: &[u8]) -> Result<(), Refusal>
        ensures { (p : P) (m : List ℕ) → Four P.image p m self.old → MatchResult result (λ _. (length (m ++ bytes.now) ≤ 2 ^ 40) × Four P.image p (m ++ bytes.now) self.new) (λ _. 2 ^ 40 < length (m ++ bytes.now)) }
    {
        self.d224.feed(bytes)?;
        self.d256.feed(bytes)?;
        self.d384.feed(bytes)?;
        self.d512.feed(bytes)
    }

    // Finishes the feeders, and adds the lines of their digests to a text, sizes rising.
    pub(crate) fn push_lines(&mut self, text: &mut Text<364>)
        ensures { (p : P) (m : List ℕ) → Four P.image p m self.old → AddsLines (jh_over (P.image p)) m text.old text.new }
    {
        push_line(text, &mut self.d224);
        push_line(text, &mut self.d256);
        push_line(text, &mut self.d384);
        push_line(text, &mut self.d512);
    }
}

// Finishes a feeder, and adds the line of its digest to a text.
// Kept: pushes are plainer than `write!` into a text, which has no heap: a digest's digits have no Display of their own.
fn push_line<P: Permutation>(text: &mut Text<364>, feeder: &mut JhFeeder<P>)
    ensures { (p : P) (m : List ℕ) (s : Size) → Holds P.image p m s feeder.old → Adds (jh_over (P.image p)) (bits_in s) m text.old text.new }
{
    let size = feeder.size();
    // 64 bytes are enough for every size.
    let mut digest = [0; 64];
    let _ = feeder.finish(&mut digest);
    text.push_number(u64::from(size.bits()));
    text.push(b"\t");
    text.push_hex(&digest[..size.bytes()]);
    text.push(b"\n");
}
