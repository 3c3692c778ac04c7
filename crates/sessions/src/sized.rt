// A request to a roll that was opened.
ghost use Rattle.std.specs.Prelude.{◌≡◌, ℕ, List};
ghost use Rattle.refusals.specs.Sizes.{bits_in};
ghost use Rattle.daybook.specs.Daybook.{Call};
ghost use Rattle.replay.specs.Heard.{Phase};
ghost use Rattle.sessions.specs.Sessions.{Looks, Replies};
ghost use Rattle.sessions.specs.Told.{Calls, Makes, TellsClose};

use crate::answering::{digest, line_answer, total};
use crate::state::SizedRoll;
use answers::answer::LineAnswer;
use press::Press;
use refusals::refusal::Refusal;
use replay::request::Request;
use replay::turn::turn;
use requests::request::LineRequest;

// The call that a request makes on a roll; none for one that makes none.
// Kept: no plainer by `From`, since both types are of other crates and a wrapper of one would only be unwrapped here.
fn call_of<'a>(request: &'a LineRequest) -> Option<Request<'a>>
    ensures { Calls request.now result }
{
    match request {
        LineRequest::Open(_, _) => None,
        LineRequest::Pass(passage) => Some(Request::Pass(passage)),
        LineRequest::Cancel(serial) => Some(Request::Cancel(*serial)),
        LineRequest::Ship => Some(Request::Ship(64)),
        LineRequest::Close => Some(Request::Close),
        LineRequest::Reopen => Some(Request::Reopen),
        LineRequest::Total => None,
    }
}

// Makes a call on the roll.
fn make<P: Press + Drop>(sized: SizedRoll<P>, request: Request) -> (SizedRoll<P>, LineAnswer)
    ensures size { result.0.size ≡ sized.size }
    ensures turn { Makes P.means sized.roll request.entry result.0.roll result.1 }
{
    let SizedRoll { size, roll } = sized;
    let (roll, answer) = turn(roll, &request);
    (SizedRoll { size, roll }, line_answer(answer))
}

// The answer to a request, after its call: for an accepted close the digest of the roll, which is closed now.
fn tell<P: Press>(request: &LineRequest, answer: LineAnswer, sized: &SizedRoll<P>) -> LineAnswer
    ensures { TellsClose P.means request.now answer (bits_in sized.now.size) sized.now.roll result }
{
    match (request, answer) {
        (LineRequest::Close, LineAnswer::Done) => digest(sized.size, &sized.roll),
        _ => answer,
    }
}

// A request that makes no call: a total, or an open while a roll is open.
fn look<P: Press>(sized: &SizedRoll<P>, request: &LineRequest) -> LineAnswer
    ensures { Looks P.means sized.now request.now result }
{
    match request {
        LineRequest::Total => total(&sized.roll),
        _ => LineAnswer::Refused(Refusal::Request),
    }
}

// The roll after a request, and the answer.
pub(crate) fn reply<P: Press + Drop>(
    sized: SizedRoll<P>,
    request: &LineRequest,
) -> (SizedRoll<P>, LineAnswer)
    ensures { Replies P.means sized request.now result.0 result.1 }
{
    let Some(call) = call_of(request) else {
        let answer = look(&sized, request);
        return (sized, answer);
    };
    let (sized, answer) = make(sized, call);
    let answer = tell(request, answer, &sized);
    (sized, answer)
}
