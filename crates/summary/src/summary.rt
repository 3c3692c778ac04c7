// One message on its way to its four digests.
ghost use Rattle.std.specs.Prelude.{◌≡◌, ℕ, ◌^◌, List, [], ◌++◌, length, nat_lt};
ghost use Rattle.jh.specs.Jh.{jh, jh_over, MeansE8};

use crate::feeders::Feeders;
use fields::text::Text;
use permutation::Permutation;

// The feeders of the message; none once more than 2^40 bytes came.
#[derive(Drop)]
pub struct Summary<P> {
    pub(crate) feeders: Option<Feeders<P>>,
}

impl<P: Permutation + Copy> Summary<P> {
    ghost use Rattle.summary.specs.Fed.{Fed};
    ghost use Rattle.summary.specs.Report.{report_of};

    // The summary of the empty message.
    pub fn new(permutation: P) -> Self
        ensures { Fed P.image permutation [] result }
    {
        Summary {
            feeders: Some(Feeders::new(permutation)),
        }
    }

    // Puts bytes at the end of the message.
    pub fn feed(&mut self, bytes: &[u8])
        ensures { (p : P) (m : List ℕ) → Fed P.image p m self.old → Fed P.image p (m ++ bytes.now) self.new }
    {
        if let Some(feeders) = &mut self.feeders {
            if feeders.feed(bytes).is_err() {
                self.feeders = None;
            }
        }
    }

    // Whether the message has passed 2^40 bytes.
    pub fn refused(&self) -> bool
        ensures { (p : P) (m : List ℕ) → Fed P.image p m self.now → result ≡ nat_lt (2 ^ 40) (length m) }
    {
        self.feeders.is_none()
    }

    // A line for each digest, `SIZE<tab>hexadecimal digits<line feed>`, sizes rising; `refused<tab>2<line feed>` where the message has
    // passed 2^40 bytes. Over a permutation that means E8, the digests are JH's.
    pub fn report(self) -> Text<364>
        ensures value { (p : P) (m : List ℕ) → Fed P.image p m self → result ≡ report_of (jh_over (P.image p)) m }
        ensures jh { (p : P) (m : List ℕ) → Fed P.image p m self → MeansE8 (P.image p) → result ≡ report_of jh m }
    {
        let mut text = Text::new();
        match self.feeders {
            Some(mut feeders) => feeders.push_lines(&mut text),
            None => text.push(b"refused\t2\n"),
        }
        text
    }
}
