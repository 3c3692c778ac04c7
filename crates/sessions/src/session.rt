// A session: the requests of one caller, on one roll.
ghost use Rattle.requests.specs.Requests.{request_of};
ghost use Rattle.sessions.specs.Sessions.{Opened, Answers, GoesOn};

use crate::sized::reply;
use crate::state::{Session, SizedRoll};
use answers::answer::LineAnswer;
use press::{Declined, Press};
use refusals::refusal::Refusal;
use replay::roll::Roll;
use requests::request::{LineRequest, PressName};
use rolls::state::OpenRoll;

// Opens a roll of so many bits; a refusal hands the press back.
fn open<P: Press>(press: P, bits: u64) -> Result<SizedRoll<P>, Declined<P>>
    ensures { Opened P.means press bits result }
{
    let Ok(size) = u32::try_from(bits) else {
        return Err(Declined {
            press,
            refusal: Refusal::Size,
        });
    };
    let roll = OpenRoll::open(press, size)?;
    let size = roll.size();
    Ok(SizedRoll {
        size,
        roll: Roll::Open(roll),
    })
}

// A request before a roll is open: only an open is allowed.
fn first<J: Press + Drop, D: Press + Drop>(
    jh: J,
    drill: D,
    request: &LineRequest,
) -> (Session<J, D>, LineAnswer)
    ensures { Answers J.means D.means (Session.Unopened jh drill) request.now result.0 result.1 }
{
    // Kept: two arms of a few lines are plainer than a function that takes the variant as a closure, and whose clause says what
    // the closure makes.
    match request {
        LineRequest::Open(PressName::Jh, bits) => match open(jh, *bits) {
            Ok(roll) => (Session::Jh(roll), LineAnswer::Done),
            Err(Declined { press, refusal }) => {
                (
                    Session::Unopened(press, drill),
                    LineAnswer::Refused(refusal),
                )
            }
        },
        LineRequest::Open(PressName::Drill, bits) => match open(drill, *bits) {
            Ok(roll) => (Session::Drill(roll), LineAnswer::Done),
            Err(Declined { press, refusal }) => {
                (Session::Unopened(jh, press), LineAnswer::Refused(refusal))
            }
        },
        _ => (
            Session::Unopened(jh, drill),
            LineAnswer::Refused(Refusal::Request),
        ),
    }
}

// The session after a request, and the answer.
fn request<J: Press + Drop, D: Press + Drop>(
    session: Session<J, D>,
    request: &LineRequest,
) -> (Session<J, D>, LineAnswer)
    ensures { Answers J.means D.means session request.now result.0 result.1 }
{
    // Kept: two arms of two lines are plainer than a function that takes the variant as a closure, as in `first`.
    match session {
        Session::Unopened(jh, drill) => first(jh, drill, request),
        Session::Jh(roll) => {
            let (roll, answer) = reply(roll, request);
            (Session::Jh(roll), answer)
        }
        Session::Drill(roll) => {
            let (roll, answer) = reply(roll, request);
            (Session::Drill(roll), answer)
        }
    }
}

// The session after a line, given without its line feed, and the answer: 16 to a line that cannot be read or that the state
// of the roll does not allow.
pub fn answer<J: Press + Drop, D: Press + Drop>(
    session: Session<J, D>,
    line: &[u8],
) -> (Session<J, D>, LineAnswer)
    ensures { GoesOn J.means D.means session (request_of line.now) result.0 result.1 }
{
    match LineRequest::try_from(line) {
        Ok(asked) => request(session, &asked),
        Err(refusal) => (session, LineAnswer::Refused(refusal)),
    }
}
