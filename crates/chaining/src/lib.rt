// What the JH press and the drill press share: a block in one half of a chain value, the size as a chain value, the ending block.
#![tactic(auto)]

ghost use Rattle.std.specs.Prelude.{◌≡◌};
ghost use Rattle.jh.specs.Compression.{size_bytes, ending_block};
ghost use Rattle.refusals.specs.Sizes.{bits_in};
ghost use Rattle.chaining.specs.Masked.{masked};

use byte_strings::xor_into;
use press::{Block, Chain};
use refusals::size::DigestSize;

// The half of a chain value that a block goes into: bytes 0 to 63, or bytes 64 to 127.
#[derive(Clone, Copy, Debug, PartialEq, Eq)]
pub enum Half {
    Low,
    High,
}

// Exclusive-ors the block into that half of the chain value.
pub fn mask(c: &mut Chain, half: Half, m: &Block)
    ensures { c.new ≡ masked half c.old m.now }
{
    match half {
        Half::Low => xor_into(&mut c[0..64], m),
        Half::High => xor_into(&mut c[64..128], m),
    }
}

// A chain value with the digest size in bytes 0 and 1, the high byte first, and zeros.
pub fn sized_chain(size: DigestSize) -> Chain
    ensures { result ≡ size_bytes (bits_in size) }
{
    let mut c = [0; 128];
    c[0..2].copy_from_slice(&size.bits().to_be_bytes());
    c
}

// The last block of a row of `count` blocks: a one bit, zeros, and the count of bits in 16 bytes.
pub fn last_block(count: u32) -> Block
    ensures { result ≡ ending_block count }
{
    let mut m = [0; 64];
    m[0] = 0x80;
    m[48..64].copy_from_slice(&(512 * u128::from(count)).to_be_bytes());
    m
}
