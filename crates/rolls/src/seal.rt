// A seal: a chain value of a press, stepped through blocks and passages, wound back through them, and written out.
ghost use Rattle.std.specs.Prelude.{◌≡◌, ◌-◌, ◌≤◌, length, drop, fold};
ghost use Rattle.refusals.specs.Refusals.{outcome, buffer_refusal};
ghost use Rattle.refusals.specs.Sizes.{bits_in};
ghost use Rattle.passages.specs.Rows.{encoded_all};
ghost use Rattle.daybook.specs.States.{unwound};
ghost use Rattle.rolls.specs.Buffers.{Writes};

use passages::passage::Passage;
use press::{Block, Chain, Press};
use refusals::refusal::Refusal;
use refusals::size::DigestSize;

#[derive(Drop)]
pub(crate) struct Seal<P> {
    pub(crate) press: P,
    pub(crate) chain: Chain,
}

impl<P: Press> Seal<P> {
    ghost use Rattle.rolls.specs.Seals.{seal_at};

    // The opening value of that digest size.
    pub(crate) fn open(press: P, size: DigestSize) -> Self
        ensures { result ≡ seal_at press ((P.means press).opens (bits_in size)) }
    {
        let chain = press.opening(size);
        Seal { press, chain }
    }

    // Steps with a block.
    pub(crate) fn step(&mut self, block: &Block)
        ensures { self.new ≡ seal_at self.old.press ((P.means self.old.press).steps self.old.chain block.now) }
    {
        self.chain = self.press.step(&self.chain, block);
    }

    // Winds back through a block.
    pub(crate) fn back(&mut self, block: &Block)
        ensures { self.new ≡ seal_at self.old.press (P.backs self.old.press self.old.chain block.now) }
    {
        self.chain = self.press.back(&self.chain, block);
    }

    // Steps through the passages in order.
    pub(crate) fn advance(&mut self, passages: &[Passage])
        ensures { self.new ≡ seal_at self.old.press (fold (P.means self.old.press).steps self.old.chain (encoded_all passages.now)) }
    {
        for passage in passages {
            self.step(&Block::from(passage));
        }
    }

    // Winds back through the passages, the newest first.
    #[tactic(auto, using(crate::proofs::Unwinding::newest_first))]
    pub(crate) fn unwind(&mut self, passages: &[Passage])
        ensures { self.new ≡ seal_at self.old.press (unwound (P.backs self.old.press) self.old.chain (encoded_all passages.now)) }
    {
        for passage in passages.iter().rev() {
            self.back(&Block::from(passage));
        }
    }

    // Writes the last `n` bytes of the chain value to the front of the buffer; refuses a shorter buffer.
    // Kept: beside the tail that a midstate writes, which refuses nothing: its callers test the buffer before they change anything.
    pub(crate) fn write(&self, n: usize, out: &mut [u8]) -> Result<(), Refusal>
        requires { n ≤ 128 }
        ensures answer { outcome result ≡ buffer_refusal (length out.old) n }
        ensures written { Writes result n (drop (128 - n) self.now.chain) out.old out.new }
    {
        if out.len() < n {
            return Err(Refusal::Buffer);
        }
        out[..n].copy_from_slice(&self.chain[128 - n..]);
        Ok(())
    }
}
