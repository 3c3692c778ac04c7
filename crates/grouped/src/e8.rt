// The permutation E8 of 128 bytes: 42 rounds on 256 elements.
ghost use Rattle.std.specs.Prelude.{◌≡◌};
ghost use Rattle.jh.specs.Permutation.{after, e8};
ghost use Rattle.jh.specs.Inverse.{before, e8⁻¹};
ghost use Rattle.jh.proofs.Whole.{e8_undone};

use crate::constants::{advance, constant_at, first_constant, retreat};
use crate::elements::Elements;
use crate::grouping::{group, ungroup};
use permutation::Permutation;

// How many rounds E8 has.
const ROUNDS: u8 = 42;

// The first `rounds` rounds, with C_0 and on.
fn rounds_forth(elements: &mut Elements<256>, rounds: u8)
    ensures { elements.new ≡ after rounds elements.old }
{
    let mut constant = first_constant();
    for _r in 0..rounds {
        elements.round(constant.places());
        advance(&mut constant);
    }
}

// The first `rounds` rounds undone, the last one first.
fn rounds_back(elements: &mut Elements<256>, rounds: u8)
    ensures { elements.new ≡ before rounds elements.old }
{
    let mut constant = constant_at(rounds);
    for _r in 0..rounds {
        retreat(&mut constant);
        elements.unround(constant.places());
    }
}

// E8 on elements of four bits.
#[derive(Clone, Copy)]
pub struct Grouped;

// Kept: the same members as the sliced form's, each of one line, since each form says for itself that it means E8.
impl Permutation for Grouped {
    ghost image = { λ _. e8 };

    ghost preimage = { λ _. e8⁻¹ };

    ghost preimage_of_image = { λ p x b. (e8_undone x b).0 };

    ghost image_of_preimage = { λ p x b. (e8_undone x b).1 };

    ghost kept = { λ p x b. let e = e8_undone x b in (e.2, e.3) };

    // The state becomes its image under E8.
    #[tactic(auto, unfolding(jh::specs::Permutation::e8))]
    fn forth(&self, state: &mut [u8; 128]) {
        let mut elements = group(state);
        rounds_forth(&mut elements, ROUNDS);
        *state = ungroup(&elements);
    }

    // The state becomes its preimage under E8.
    fn back(&self, state: &mut [u8; 128]) {
        let mut elements = group(state);
        rounds_back(&mut elements, ROUNDS);
        *state = ungroup(&elements);
    }
}
