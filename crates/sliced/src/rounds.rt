// The rounds of the permutation on the sliced state, seven to a turn: after seven rounds the elements lie as before.
ghost use Rattle.std.specs.Prelude.{◌≡◌, ◌<◌, ◌+◌, ◌*◌, ◌%◌, ◌^◌};
ghost use Rattle.words.specs.Widths.{run_length};
ghost use Rattle.sliced.specs.State.{Steps};

use crate::state::State;
use sliced_constants::round_constant;
use words::Width;

impl State {
    // One round.
    fn next(self, round: usize, width: Width) -> State
        requires below { round < 42 }
        requires turn { run_length width ≡ 2 ^ (round % 7) }
        ensures { Steps round self (round + 1) result }
    {
        let c = round_constant(round);
        let even = self.even.substitute(c.even);
        let odd = self.odd.substitute(c.odd);
        let mixed = State { even, odd }.mix();
        State {
            even: mixed.even,
            odd: mixed.odd.exchange(width),
        }
    }

    // Seven rounds, those of turn `turn`.
    // Kept: as a list, for speed. The bar is 1.1 times C with SSE2: a `for` over the seven widths takes 1.102 and misses it, where the list takes 1.046;
    // one loop over the 42 rounds takes 1.31.
    fn next_seven(self, turn: usize) -> State
        requires { turn < 6 }
        ensures { Steps (7 * turn) self (7 * (turn + 1)) result }
    {
        let start = 7 * turn;
        self.next(start, Width::W1)
            .next(start + 1, Width::W2)
            .next(start + 2, Width::W4)
            .next(start + 3, Width::W8)
            .next(start + 4, Width::W16)
            .next(start + 5, Width::W32)
            .next(start + 6, Width::W64)
    }

    // All 42 rounds.
    pub(crate) fn forth(self) -> State
        ensures { Steps 0 self 42 result }
    {
        let mut state = self;
        for turn in 0..6 {
            state = state.next_seven(turn);
        }
        state
    }

    // One round undone.
    fn previous(self, round: usize, width: Width) -> State
        requires below { round < 42 }
        requires turn { run_length width ≡ 2 ^ (round % 7) }
        ensures { Steps (round + 1) self round result }
    {
        let c = round_constant(round);
        let odd = self.odd.exchange(width);
        let unmixed = State { odd, ..self }.unmix();
        State {
            even: unmixed.even.unsubstitute(c.even),
            odd: unmixed.odd.unsubstitute(c.odd),
        }
    }

    // Seven rounds undone, those of turn `turn`.
    // Kept: as a list, as `next_seven` is. A table of widths for this function alone is no plainer.
    fn previous_seven(self, turn: usize) -> State
        requires { turn < 6 }
        ensures { Steps (7 * (turn + 1)) self (7 * turn) result }
    {
        let start = 7 * turn;
        self.previous(start + 6, Width::W64)
            .previous(start + 5, Width::W32)
            .previous(start + 4, Width::W16)
            .previous(start + 3, Width::W8)
            .previous(start + 2, Width::W4)
            .previous(start + 1, Width::W2)
            .previous(start, Width::W1)
    }

    // All 42 rounds undone, the last one first.
    pub(crate) fn back(self) -> State
        ensures { Steps 42 self 0 result }
    {
        let mut state = self;
        for turn in (0..6).rev() {
            state = state.previous_seven(turn);
        }
        state
    }
}
