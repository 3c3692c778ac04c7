// The sliced state: 128 pairs of an even and an odd element.
ghost use Rattle.std.specs.Prelude.{◌≡◌, List, ℕ, length};
ghost use Rattle.jh.specs.Permutation.{group, ungroup};
ghost use Rattle.sliced.specs.State.{Form, Mixed, Unmixed};

use crate::slices::Slices;
use words::EightWords;

// The elements at even places, and those at odd places.
#[derive(Clone, Copy)]
pub(crate) struct State {
    pub(crate) even: Slices,
    pub(crate) odd: Slices,
}

impl State {
    // The state that the bytes hold.
    pub(crate) fn read(bytes: &[u8; 128]) -> State
        ensures { Form 0 (group bytes.now) result }
    {
        let EightWords([even_0, odd_0, even_1, odd_1, even_2, odd_2, even_3, odd_3]) =
            EightWords::read(bytes);
        State {
            even: Slices(even_0, even_1, even_2, even_3),
            odd: Slices(odd_0, odd_1, odd_2, odd_3),
        }
    }

    // The bytes now hold this state.
    pub(crate) fn write(self, bytes: &mut [u8; 128])
        ensures { (q : List ℕ) → length q ≡ 256 → Form 0 q self → bytes.new ≡ ungroup q }
    {
        let State { even, odd } = self;
        EightWords([even.0, odd.0, even.1, odd.1, even.2, odd.2, even.3, odd.3]).write(bytes);
    }

    // L on each pair: D = 2•A + B and C = 5•A + 2•B = A + 2•D.
    pub(crate) fn mix(self) -> State
        ensures { (i : ℕ) → Mixed self result i }
    {
        let odd = self.odd.plus_twice(self.even);
        let even = self.even.plus_twice(odd);
        State { even, odd }
    }

    // The inverse of L on each pair: A = C + 2•D and B = D + 2•A.
    pub(crate) fn unmix(self) -> State
        ensures { (i : ℕ) → Unmixed self result i }
    {
        let even = self.even.plus_twice(self.odd);
        let odd = self.odd.plus_twice(even);
        State { even, odd }
    }
}
