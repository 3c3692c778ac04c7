// A word and its operations, bit by bit.
ghost use Rattle.std.specs.Prelude.{◌≡◌, ℕ, ◌<◌, not, ◌&&◌, ◌||◌, [], ◌∷◌, bit_xor, slice_index};
ghost use Rattle.jh.specs.Bit.{differ};
ghost use Rattle.slicing.specs.Halves.{pair_bit, exchanged_half};
ghost use Rattle.words.specs.Bits.{word_bit};
ghost use Rattle.words.specs.Widths.{run_length};

use crate::Width;
use std::ops::{BitAnd, BitOr, BitXor, Not};
use std::simd::prelude::*;

// A word of 128 bits: two lanes of 64, the first one the high half.
#[derive(Clone, Copy)]
pub struct Word {
    lanes: u64x2,
}

impl Word {
    // The word of two halves.
    pub fn new(high: u64, low: u64) -> Word
        ensures { (i : ℕ) → word_bit result i ≡ pair_bit high low i }
    {
        Word {
            lanes: u64x2::from_array([high, low]),
        }
    }

    // The two halves, the high one first.
    pub(crate) fn halves(self) -> (u64, u64)
        ensures { (i : ℕ) → word_bit self i ≡ pair_bit result.0 result.1 i }
    {
        let [high, low] = self.lanes.to_array();
        (high, low)
    }
}

// The exclusive or, bit by bit.
impl BitXor for Word {
    type Output = Word;

    ghost bitxor_gives = { λ a b r. (i : ℕ) → word_bit r i ≡ differ (word_bit a i) (word_bit b i) };

    fn bitxor(self, rhs: Word) -> Word {
        Word {
            lanes: self.lanes ^ rhs.lanes,
        }
    }
}

// The conjunction, bit by bit.
impl BitAnd for Word {
    type Output = Word;

    ghost bitand_gives = { λ a b r. (i : ℕ) → word_bit r i ≡ (word_bit a i && word_bit b i) };

    fn bitand(self, rhs: Word) -> Word {
        Word {
            lanes: self.lanes & rhs.lanes,
        }
    }
}

// The disjunction, bit by bit.
impl BitOr for Word {
    type Output = Word;

    ghost bitor_gives = { λ a b r. (i : ℕ) → word_bit r i ≡ (word_bit a i || word_bit b i) };

    fn bitor(self, rhs: Word) -> Word {
        Word {
            lanes: self.lanes | rhs.lanes,
        }
    }
}

// The complement, bit by bit.
impl Not for Word {
    type Output = Word;

    ghost not_gives = { λ a r. (i : ℕ) → word_bit r i ≡ not (word_bit a i) };

    fn not(self) -> Word {
        Word { lanes: !self.lanes }
    }
}

impl Word {
    // Neighbouring runs of bits of this width change places.
    // Kept: a shift and a mask for each width, since the exchange is to be two shifts and a mask on a pair of 64 bits.
    pub fn exchange(self, width: Width) -> Word
        ensures { (i : ℕ) → i < 128 → word_bit result i ≡ word_bit self (bit_xor i (run_length width)) }
    {
        let lanes = match width {
            Width::W1 => exchange_runs(self.lanes, 1, 0x5555_5555_5555_5555),
            Width::W2 => exchange_runs(self.lanes, 2, 0x3333_3333_3333_3333),
            Width::W4 => exchange_runs(self.lanes, 4, 0x0f0f_0f0f_0f0f_0f0f),
            Width::W8 => exchange_runs(self.lanes, 8, 0x00ff_00ff_00ff_00ff),
            Width::W16 => exchange_runs(self.lanes, 16, 0x0000_ffff_0000_ffff),
            Width::W32 => exchange_runs(self.lanes, 32, 0x0000_0000_ffff_ffff),
            Width::W64 => exchange_lanes(self.lanes),
        };
        Word { lanes }
    }
}

// In each lane the bits that `mask` has and those n above them change places.
fn exchange_runs(lanes: u64x2, n: u64, mask: u64) -> u64x2
    requires { n < 64 }
    ensures { result ≡ exchanged_half n mask (slice_index lanes 0) ∷ exchanged_half n mask (slice_index lanes 1) ∷ [] }
{
    let shift = u64x2::splat(n);
    let kept = u64x2::splat(mask);
    ((lanes & kept) << shift) | ((lanes >> shift) & kept)
}

fn exchange_lanes(lanes: u64x2) -> u64x2
    ensures { result ≡ slice_index lanes 1 ∷ slice_index lanes 0 ∷ [] }
{
    lanes.reverse()
}
