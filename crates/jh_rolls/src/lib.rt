// Rolls over the JH press: a closed roll's digest is JH of its standing passages joined in order.
#![tactic(auto)]

ghost use Rattle.std.specs.Prelude.{◌≡◌, ℕ, ◌/◌, List, ◌++◌, length, drop, IfOk, OnOk};
ghost use Rattle.refusals.specs.Refusals.{outcome, buffer_refusal};
ghost use Rattle.jh.specs.Jh.{MeansE8};
ghost use Rattle.daybook.specs.Daybook.{Call, daybook};
ghost use Rattle.roll_contents.specs.Contents.{WellFormed};
ghost use Rattle.rolls.specs.Buffers.{Writes};
ghost use Rattle.rolls.specs.Rolls.{digest_length, digest_in};
ghost use Rattle.replay.specs.Replays.{Replays};
ghost use Rattle.jh_press.specs.Meaning.{jh_means};
ghost use Rattle.jh_rolls.specs.Jh.{CameShut, jh_of, TellsJh};

use jh_press::JhPress;
use permutation::Permutation;
use press::Declined;
use refusals::refusal::Refusal;
use replay::replay::replay;
use replay::request::{Answer, Reading, Request};
use rolls::state::ClosedRoll;

// Writes the digest of a closed roll; refuses a shorter buffer. Over a permutation that means E8 it is JH of the standing passages,
// by whatever calls the roll came.
// Kept: beside the call over any press, which cannot name JH in its contract.
pub fn digest<P: Permutation>(roll: &ClosedRoll<JhPress<P>>, out: &mut [u8]) -> Result<(), Refusal>
    ensures answer { outcome result ≡ buffer_refusal (length out.old) (digest_length roll.now) }
    ensures written { Writes result (digest_length roll.now) (digest_in roll.now) out.old out.new }
    ensures jh { MeansE8 (P.image roll.now.press.permutation) → OnOk result ((size : ℕ) (calls : List Call) → CameShut P.image roll.now size calls → out.new ≡ jh_of (daybook size calls) ++ drop (size / 8) out.old) }
    ensures formed { WellFormed roll.now.contents }
{
    roll.digest(out)
}

// Opens a roll of that size over the JH press and makes the requests on it, one after the other, as `replay` does over any press.
// Over a permutation that means E8, a roll that is then closed tells JH of its standing passages.
// Kept: beside the one over any press, which cannot name JH in its contract.
pub fn replay_jh<P: Permutation + Copy>(
    press: JhPress<P>,
    size: u32,
    requests: &[Request],
    answers: &mut [Answer],
) -> Result<Reading, Declined<JhPress<P>>>
    ensures told { Replays (jh_means P.image) press size requests.now answers.old answers.new result }
    ensures jh { MeansE8 (P.image press.permutation) → IfOk result (λ x. TellsJh size requests.now x) }
{
    replay(press, size, requests, answers)
}
