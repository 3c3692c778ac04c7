// A whole row of requests.
ghost use Rattle.std.specs.Prelude.{◌≤◌, length};
ghost use Rattle.replay.specs.Stands.{ReadsOpen, ReadsClosed, ReadsAny, Runs};
ghost use Rattle.replay.specs.Replays.{Replays};

use crate::request::{Answer, Reading, Request};
use crate::roll::Roll;
use crate::turn::turn;
use press::{Declined, Press};
use refusals::refusal::Refusal;
use rolls::state::{ClosedRoll, OpenRoll};

// What an open roll tells.
fn read_open<P: Press>(roll: &OpenRoll<P>) -> Reading
    ensures { ReadsOpen P.means roll.now result }
{
    let mut seal = [0; 128];
    let _ = roll.seal(&mut seal);
    Reading::Sealed(roll.total(), seal)
}

// What a closed roll tells.
fn read_closed<P: Press>(roll: &ClosedRoll<P>) -> Reading
    ensures { ReadsClosed P.means roll.now result }
{
    let mut digest = [0; 64];
    let _ = roll.digest(&mut digest);
    Reading::Digested(roll.total(), digest)
}

// What a roll tells.
pub fn read<P: Press>(roll: &Roll<P>) -> Reading
    ensures { ReadsAny P.means roll.now result }
{
    match roll {
        Roll::Open(roll) | Roll::Saved(roll, _) => read_open(roll),
        Roll::Closed(roll) => read_closed(roll),
    }
}

// The requests one after the other, on a new roll.
// Kept: the requests are read and the answers written, two slices of the caller's; a struct of both would be made to be taken apart.
fn run<P: Press + Drop>(roll: OpenRoll<P>, requests: &[Request], answers: &mut [Answer]) -> Roll<P>
    requires { length requests.now ≤ length answers.old }
    ensures { Runs P.means roll requests.now answers.old answers.new result }
{
    let mut roll = Roll::Open(roll);
    // Kept: answered by place, since after `zip(answers.iter_mut())` the proof knows only how many answers there are.
    for (i, request) in requests.iter().enumerate() {
        let (next, answer) = turn(roll, request);
        roll = next;
        answers[i] = answer;
    }
    roll
}

// Opens a roll of that size over the press and makes the requests on it, one after the other. The first answers are those to
// the requests, the others stay; the result is what the roll then tells. A request that the state of the roll does not allow is
// passed over. Refuses, and hands the press back, fewer answers than requests, then a size that is none of the four.
pub fn replay<P: Press + Drop>(
    press: P,
    size: u32,
    requests: &[Request],
    answers: &mut [Answer],
) -> Result<Reading, Declined<P>>
    ensures { Replays P.means press size requests.now answers.old answers.new result }
{
    if answers.len() < requests.len() {
        return Err(Declined {
            press,
            refusal: Refusal::Buffer,
        });
    }
    let roll = run(OpenRoll::open(press, size)?, requests, answers);
    Ok(read(&roll))
}
