// The two forms of the permutation E8, on elements of four bits and bit-sliced, answer alike.
#![tactic(auto)]

ghost use Rattle.std.specs.Prelude.{◌≡◌};
ghost use Rattle.std.specs.Fn.{FnOnceReturnsAtMut};
ghost use Rattle.jh.specs.Permutation.{e8};
ghost use Rattle.jh.specs.Inverse.{e8⁻¹};

use grouped::Grouped;
use permutation::Permutation;
use sliced::Sliced;

// What the two forms answer.
#[derive(Debug, Clone, Copy, PartialEq, Eq)]
pub struct BothForms {
    pub grouped: [u8; 128],
    pub sliced: [u8; 128],
}

// A state after a change.
fn changed<F: FnOnce(&mut [u8; 128])>(state: &[u8; 128], change: F) -> [u8; 128]
    requires { F.IsAlwaysCallable change }
    ensures { FnOnceReturnsAtMut F.FnOnce change state.now tt result }
{
    let mut state = *state;
    change(&mut state);
    state
}

// The image of a state under both forms, the same one.
pub fn forth_alike(state: &[u8; 128]) -> BothForms
    ensures alike { result.grouped ≡ result.sliced }
    ensures answer { result.sliced ≡ e8 state.now }
{
    BothForms {
        grouped: changed(state, |state| Grouped.forth(state)),
        sliced: changed(state, |state| Sliced.forth(state)),
    }
}

// The preimage of a state under both forms, the same one.
pub fn back_alike(state: &[u8; 128]) -> BothForms
    ensures alike { result.grouped ≡ result.sliced }
    ensures answer { result.sliced ≡ e8⁻¹ state.now }
{
    BothForms {
        grouped: changed(state, |state| Grouped.back(state)),
        sliced: changed(state, |state| Sliced.back(state)),
    }
}
