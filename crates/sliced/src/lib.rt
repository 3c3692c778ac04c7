// JH's permutation E8 on eight words of 128 bits, all elements of one parity at once.
#![tactic(auto)]

mod rounds;
mod slices;
mod state;

ghost use Rattle.jh.specs.Permutation.{e8};
ghost use Rattle.jh.specs.Inverse.{e8⁻¹};
ghost use Rattle.jh.proofs.Whole.{e8_undone};

use permutation::Permutation;
use state::State;

// E8, bit-sliced.
#[derive(Clone, Copy)]
pub struct Sliced;

// Kept: the same members as the grouped form's, each of one line, since each form says for itself that it means E8.
impl Permutation for Sliced {
    ghost image = { λ _. e8 };

    ghost preimage = { λ _. e8⁻¹ };

    ghost preimage_of_image = { λ p x b. (e8_undone x b).0 };

    ghost image_of_preimage = { λ p x b. (e8_undone x b).1 };

    ghost kept = { λ p x b. ((e8_undone x b).2, (e8_undone x b).3) };

    // The state becomes its image under E8.
    fn forth(&self, state: &mut [u8; 128]) {
        let first = State::read(state);
        let last = first.forth();
        last.write(state);
    }

    // The state becomes its preimage under E8.
    fn back(&self, state: &mut [u8; 128]) {
        let last = State::read(state);
        let first = last.back();
        first.write(state);
    }
}
