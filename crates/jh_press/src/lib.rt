// The JH press: the compression function of JH over any permutation of 1,024 bits; with E8 it is F8.
#![tactic(auto)]

ghost use Rattle.std.specs.Prelude.{◌≡◌};
ghost use Rattle.jh.specs.Compression.{uncompress};
ghost use Rattle.refusals.specs.Sizes.{bits_in};
ghost use Rattle.jh_press.specs.Meaning.{jh_means};
ghost use Rattle.jh.proofs.Compression.{opening_bytes, compress_bytes, compress_undone, uncompress_undone};

use chaining::{Half, last_block, mask, sized_chain};
use permutation::Permutation;
use press::{Block, Chain, Press};
use refusals::size::DigestSize;

#[derive(Clone, Copy)]
pub struct JhPress<P> {
    permutation: P,
}

impl<P: Permutation> JhPress<P> {
    // The JH press over that permutation.
    pub fn new(permutation: P) -> Self
        ensures { result.permutation ≡ permutation }
    {
        JhPress { permutation }
    }
}

impl<P: Permutation> Press for JhPress<P> {
    ghost means = { jh_means P.Permutation.image };

    ghost backs = { λ p c m. uncompress (P.Permutation.preimage p.permutation) c m };

    ghost opens_chain = { λ p s. opening_bytes (P.Permutation.image p.permutation) (λ x h. (P.Permutation.kept p.permutation x h).0) (bits_in s) };

    ghost steps_chain = { λ p c m b k. compress_bytes (P.Permutation.image p.permutation) (λ x h. (P.Permutation.kept p.permutation x h).0) c m b k };

    ghost back_of_step = { λ p c m b k.
        compress_undone (P.Permutation.image p.permutation) (P.Permutation.preimage p.permutation)
        (P.Permutation.preimage_of_image p.permutation) (λ x h. (P.Permutation.kept p.permutation x h).0) c m b k };

    ghost step_of_back = { λ p c m b k.
        uncompress_undone (P.Permutation.preimage p.permutation) (P.Permutation.image p.permutation)
        (P.Permutation.image_of_preimage p.permutation) (λ x h. (P.Permutation.kept p.permutation x h).1) c m b k };

    #[tactic(auto, unfolding(jh::specs::Compression::opening_over))]
    fn opening(&self, size: DigestSize) -> Chain {
        self.step(&sized_chain(size), &[0; 64])
    }

    fn step(&self, c: &Chain, m: &Block) -> Chain {
        let mut next = *c;
        mask(&mut next, Half::Low, m);
        self.permutation.forth(&mut next);
        mask(&mut next, Half::High, m);
        next
    }

    fn back(&self, c: &Chain, m: &Block) -> Chain {
        let mut last = *c;
        mask(&mut last, Half::High, m);
        self.permutation.back(&mut last);
        mask(&mut last, Half::Low, m);
        last
    }

    // Kept: the same line in both presses, each of which tells all four functions itself.
    fn ending(&self, count: u32) -> Block {
        last_block(count)
    }
}
