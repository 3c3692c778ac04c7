// The drill press, which seals the rolls of crew exercises: it rotates the chain value by one byte and masks the block in.
#![tactic(auto)]

ghost use Rattle.std.specs.Prelude.{◌≡◌};
ghost use Rattle.drill_press.specs.Drill.{drill, stepped, stepped_back};
ghost use Rattle.refusals.specs.Sizes.{bits_in};
ghost use Rattle.jh.proofs.Compression.{size_bytes_long};
ghost use Rattle.drill_press.specs.Rotations.{stepped_bytes, step_undone, back_undone};

use chaining::{Half, last_block, mask, sized_chain};
use press::{Block, Chain, Press};
use refusals::size::DigestSize;

#[derive(Clone, Copy)]
pub struct Drill;

impl Press for Drill {
    ghost means = { λ _. drill };

    ghost backs = { λ _ c m. stepped_back c m };

    ghost opens_chain = { λ p s. size_bytes_long (bits_in s) };

    ghost steps_chain = { λ p c m b k. stepped_bytes c m b k };

    ghost back_of_step = { λ p c m b k. step_undone c m b k };

    ghost step_of_back = { λ p c m b k. back_undone c m b k };

    fn opening(&self, size: DigestSize) -> Chain {
        sized_chain(size)
    }

    #[tactic(auto, unfolding(crate::specs::Drill::stepped))]
    fn step(&self, c: &Chain, m: &Block) -> Chain {
        let mut next = *c;
        next.rotate_left(1);
        mask(&mut next, Half::High, m);
        next
    }

    #[tactic(auto, unfolding(crate::specs::Drill::stepped_back))]
    fn back(&self, c: &Chain, m: &Block) -> Chain {
        let mut last = *c;
        mask(&mut last, Half::High, m);
        last.rotate_right(1);
        last
    }

    // Kept: the same line in both presses, each of which tells all four functions itself.
    fn ending(&self, count: u32) -> Block {
        last_block(count)
    }
}
