// The permutation, forth and back.
ghost use Rattle.std.specs.Prelude.{◌≡◌, ◌≢◌, length};
ghost use Rattle.std.specs.Fn.{FnOnceReturnsAtMut};
ghost use Rattle.jh.specs.Permutation.{e8};
ghost use Rattle.jh.specs.Inverse.{e8⁻¹};
ghost use Rattle.bench_interface.specs.Calls.{on_state};

use permutation::Permutation;
use sliced::Sliced;

// A state of 128 bytes becomes its image under E8; anything else stays.
#[unsafe(no_mangle)]
pub extern "C" fn gobutlin_forth(state: &mut [u8])
    ensures { state.new ≡ on_state e8 state.old }
{
    change_whole(state, |whole| Sliced.forth(whole));
}

// A state of 128 bytes becomes its preimage under E8; anything else stays.
// Kept: the C interface has a name for each way; both hand on to one function.
#[unsafe(no_mangle)]
pub extern "C" fn gobutlin_back(state: &mut [u8])
    ensures { state.new ≡ on_state e8⁻¹ state.old }
{
    change_whole(state, |whole| Sliced.back(whole));
}

// Changes a state of 128 bytes; anything else stays.
fn change_whole<F: FnOnce(&mut [u8; 128])>(state: &mut [u8], change: F)
    requires { F.IsAlwaysCallable change }
    ensures whole { length state.old ≡ 128 → FnOnceReturnsAtMut F.FnOnce change state.old tt state.new }
    ensures other { length state.old ≢ 128 → state.new ≡ state.old }
{
    if let Some(whole) = state.as_mut_array() {
        change(whole);
    }
}
