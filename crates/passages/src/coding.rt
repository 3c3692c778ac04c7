// A passage from its 64 bytes and back.
ghost use Rattle.std.specs.Prelude.{◌≡◌, ◌+◌, ◌≤◌, length, IfOk, ◌==◌, take, drop};
ghost use Rattle.refusals.specs.Refusals.{outcome};
ghost use Rattle.passages.specs.Fields.{formed};
ghost use Rattle.passages.specs.Coding.{put_at, encoded};
ghost use Rattle.passages.specs.Laws.{refused_after, Reads, Decodes, EncodingUndoes, DecodingUndoes};

use crate::passage::Passage;
use press::Block;
use refusals::refusal::Refusal;

// Where each field begins in the block; after class and version two bytes are zero.
const GATE: usize = 0;

const SERIAL: usize = 4;

const TIME: usize = 8;

const CLASS: usize = 16;

const FULL_PRICE: usize = 20;

const DISCOUNT: usize = 24;

const CHARGED: usize = 28;

const TAG: usize = 32;

// The N bytes from place `at` on.
fn part<const N: usize>(block: &Block, at: usize) -> [u8; N]
    requires { at + N ≤ 64 }
    ensures { result ≡ take N (drop at block.now) }
{
    let mut part = [0; N];
    part.copy_from_slice(&block[at..at + N]);
    part
}

// Writes the part over the block, from place `at` on.
fn put(block: &mut Block, at: usize, part: &[u8])
    requires { at + length part.now ≤ 64 }
    ensures { block.new ≡ put_at at part.now block.old }
{
    block[at..at + part.len()].copy_from_slice(part);
}

// A class from 1 to 9, a version from 1 to 4, and zero in the two bytes after them.
fn is_formed(block: &Block) -> bool
    ensures { result ≡ formed block.now }
{
    matches!(part::<4>(block, CLASS), [1..=9, 1..=4, 0, 0])
}

// The passage in those bytes. Encoded, it gives them again where bytes 18 and 19 are zero.
impl From<&Block> for Passage {
    ghost from_gives = { λ block passage. Reads block.now passage };

    fn from(block: &Block) -> Self {
        let [class, version, _, _] = part::<4>(block, CLASS);
        Passage {
            gate: u32::from_be_bytes(part(block, GATE)),
            serial: u32::from_be_bytes(part(block, SERIAL)),
            time: u64::from_be_bytes(part(block, TIME)),
            class,
            version,
            full_price: u32::from_be_bytes(part(block, FULL_PRICE)),
            discount: u32::from_be_bytes(part(block, DISCOUNT)),
            charged: u32::from_be_bytes(part(block, CHARGED)),
            tag: part(block, TAG),
        }
    }
}

// The 64 bytes of the passage.
impl From<&Passage> for Block {
    ghost from_gives = { λ passage block. block ≡ encoded passage.now };

    fn from(passage: &Passage) -> Self {
        let mut block = [0; 64];
        put(&mut block, GATE, &passage.gate.to_be_bytes());
        put(&mut block, SERIAL, &passage.serial.to_be_bytes());
        put(&mut block, TIME, &passage.time.to_be_bytes());
        put(&mut block, CLASS, &[passage.class, passage.version, 0, 0]);
        put(&mut block, FULL_PRICE, &passage.full_price.to_be_bytes());
        put(&mut block, DISCOUNT, &passage.discount.to_be_bytes());
        put(&mut block, CHARGED, &passage.charged.to_be_bytes());
        put(&mut block, TAG, &passage.tag);
        block
    }
}

impl Passage {
    // The passage in those bytes, if it may stand after one with the serial `last`. Refuses a serial that is not above
    // `last`, then a class, version or zero byte that is not of the form, then prices that do not agree.
    pub fn decode_after(last: u32, block: &Block) -> Result<Passage, Refusal>
        ensures answer { outcome result ≡ refused_after last block.now }
        ensures value { IfOk result (λ p. Decodes last block.now p) }
    {
        let passage = Passage::from(block);
        if passage.serial <= last {
            return Err(Refusal::Serial);
        }
        if !is_formed(block) {
            return Err(Refusal::Form);
        }
        if !passage.is_priced() {
            return Err(Refusal::Price);
        }
        Ok(passage)
    }

    // Charged plus discount, as whole numbers, is the full price.
    pub fn is_priced(&self) -> bool
        ensures { result ≡ (self.now.charged + self.now.discount == self.now.full_price) }
    {
        u64::from(self.charged) + u64::from(self.discount) == u64::from(self.full_price)
    }
}

// Encoding what was decoded gives the same 64 bytes, and decoding gives the passage that was encoded.
pub fn coding_laws()
    ensures encoding { EncodingUndoes }
    ensures decoding { DecodingUndoes }
{}
