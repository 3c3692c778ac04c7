// A text of requests, and the text of their answers.
#![tactic(auto)]

ghost use Rattle.std.specs.Prelude.{◌≡◌, List};
ghost use Rattle.answers.specs.Said.{said, line_of};
ghost use Rattle.sessions.specs.Courses.{by_name};
ghost use Rattle.transcript.specs.Output.{output, Added, Runs};

use answers::answer::LineAnswer;
use fields::cuts::cut;
use press::Press;
use refusals::refusal::Refusal;
use sessions::session::answer;
use sessions::state::Session;
use std::alloc::AllocError;

// So many bytes of a text are read.
pub const MOST_READ: usize = 65_536;

// Adds the line of an answer; it fails only where `out` has no room for it, and leaves it as it is.
fn add(out: &mut Vec<u8>, answer: &LineAnswer) -> Result<(), AllocError>
    ensures { Added result out.old out.new (line_of (said answer.now)) }
{
    out.extend_from_slice(answer.line().as_slice())
}

// Adds the lines that answer a text, line by line.
fn run<J: Press + Drop, D: Press + Drop>(
    session: Session<J, D>,
    text: &[u8],
    out: &mut Vec<u8>,
) -> Result<(), AllocError>
    ensures { Runs J.means D.means session text.now out.old out.new result }
{
    let mut session = session;
    let mut rest = text;
    // Kept: over `split_inclusive` a loop would have to take each line's feed off again, and find a last part that has none.
    while let Some((line, after)) = cut(rest, b'\n') {
        let (next, told) = answer(session, line);
        session = next;
        add(out, &told)?;
        rest = after;
    }
    if rest.is_empty() {
        return Ok(());
    }
    add(out, &LineAnswer::Refused(Refusal::Request))
}

// Adds the answers to the first 65,536 bytes of a text of requests, with a press for each name. It fails only where `out` has no
// room for all of them, and leaves it as it is.
pub fn transcribe<J: Press + Drop, D: Press + Drop>(
    jh: J,
    drill: D,
    text: &[u8],
    out: &mut Vec<u8>,
) -> Result<(), AllocError>
    ensures { Added result out.old out.new (output (by_name (J.means jh) (D.means drill)) text.now) }
{
    let old = out.len();
    let read = &text[..MOST_READ.min(text.len())];
    let result = run(Session::Unopened(jh, drill), read, out);
    if result.is_err() {
        out.truncate(old);
    }
    result
}
