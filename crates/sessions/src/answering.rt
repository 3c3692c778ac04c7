// The answers of a roll, as a line tells them.
ghost use Rattle.std.specs.Prelude.{◌≡◌, ℕ, List};
ghost use Rattle.refusals.specs.Sizes.{bits_in};
ghost use Rattle.daybook.specs.Daybook.{Call, daybook};
ghost use Rattle.replay.specs.Heard.{Phase, shut, digest_at};
ghost use Rattle.replay.specs.Stands.{Stands};
ghost use Rattle.answers.specs.Said.{said};
ghost use Rattle.answers.specs.Said.Said.{closed};
ghost use Rattle.sessions.specs.Courses.{totalled};
ghost use Rattle.sessions.specs.Told.{told};

use answers::answer::LineAnswer;
use press::Press;
use refusals::refusal::Refusal;
use refusals::size::DigestSize;
use replay::replay::read;
use replay::request::{Answer, Reading};
use replay::roll::Roll;

// What a line tells of the answer to a call; 16 where the state of the roll does not allow it. No line asks for a save.
// Kept: no plainer by `From`, since both types are of other crates and a wrapper of one would only be unwrapped here.
pub(crate) fn line_answer(answer: Answer) -> LineAnswer
    ensures { said result ≡ told answer }
{
    match answer {
        Answer::Skipped => LineAnswer::Refused(Refusal::Request),
        Answer::Refused(refusal) => LineAnswer::Refused(refusal),
        Answer::Shipped(passage) => LineAnswer::Shipped(passage),
        Answer::Done | Answer::Wrote(_) => LineAnswer::Done,
    }
}

// The total of a roll.
pub(crate) fn total<P: Press>(roll: &Roll<P>) -> LineAnswer
    ensures { (p : P) (size : ℕ) (f : Phase) (calls : List Call) → Stands P.means p size roll.now f calls → said result ≡ totalled (daybook size calls) }
{
    match read(roll) {
        Reading::Sealed(total, _) | Reading::Digested(total, _) => {
            LineAnswer::Total(total.cents, total.count)
        }
    }
}

// The digest of a closed roll of that size.
pub(crate) fn digest<P: Press>(size: DigestSize, roll: &Roll<P>) -> LineAnswer
    ensures { (p : P) (calls : List Call) → Stands P.means p (bits_in size) roll.now shut calls → said result ≡ closed (digest_at (P.means p) (daybook (bits_in size) calls)) }
{
    match read(roll) {
        Reading::Sealed(_, _) => LineAnswer::Refused(Refusal::Request),
        Reading::Digested(_, digest) => LineAnswer::Closed(size, digest),
    }
}
