// Digests over both permutations.
use crate::hex;
use anyhow::Context;
use grouped::Grouped;
use jh_digest::whole::digest;
use jh_press::JhPress;
use permutation::Permutation;
use sliced::Sliced;
use std::alloc::Global;

// The first `bits` bits of a message, and what their digest of `size` bits is said to be.
#[derive(Drop)]
pub struct Digest {
    size: u32,
    message: Vec<u8>,
    bits: u64,
    theirs: Vec<u8>,
}

impl Digest {
    // What a line has: a digest size, a message of whole bytes and a digest.
    pub fn of_bytes(heap: Global, line: &str) -> anyhow::Result<Digest> {
        let mut fields = line.split('\t');
        let size = fields.next().context("no size")?.parse::<u32>()?;
        let message = hex::bytes_of(heap, fields.next().context("no message")?)?;
        let theirs = hex::bytes_of(heap, fields.next().context("no digest")?)?;
        let bits = (message.len() as u64).saturating_mul(8);
        Ok(Digest {
            size,
            message,
            bits,
            theirs,
        })
    }

    // What a line has: a count of bits, a message, a digest size and a digest.
    // Kept: beside `of_bytes`. The fields stand in another order, so the two share the last field alone, and a function for it would be no shorter.
    pub fn of_bits(heap: Global, line: &str) -> anyhow::Result<Digest> {
        let mut fields = line.split('\t');
        let bits = fields.next().context("no count")?.parse::<u64>()?;
        let message = hex::bytes_of(heap, fields.next().context("no message")?)?;
        let size = fields.next().context("no size")?.parse::<u32>()?;
        let theirs = hex::bytes_of(heap, fields.next().context("no digest")?)?;
        Ok(Digest {
            size,
            message,
            bits,
            theirs,
        })
    }

    // Whether it is ours over a permutation.
    fn is_ours_over<P: Permutation + Drop>(&self, permutation: P) -> bool {
        let mut ours = [0; 64];
        let length = (self.size as usize / 8).min(64);
        let press = JhPress::new(permutation);
        digest(&press, self.size, &self.message, self.bits, &mut ours).is_ok()
            && self.theirs.as_slice() == &ours[..length]
    }

    // Whether it is ours over both permutations.
    pub fn is_ours(&self) -> bool {
        self.is_ours_over(Grouped) && self.is_ours_over(Sliced)
    }
}
