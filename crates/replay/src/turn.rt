// One request on a roll.
ghost use Rattle.std.specs.Prelude.{◌≡◌, IfOk, Ok, OnOk, ◌≢◌};
ghost use Rattle.refusals.specs.Refusals.{outcome};
ghost use Rattle.refusals.specs.Sizes.{bits_in};
ghost use Rattle.daybook.specs.Contents.{refused_ship, refused_save, oldest};
ghost use Rattle.daybook.specs.States.{after_ship, Leaves};
ghost use Rattle.daybook.specs.Daybook.{next_out};
ghost use Rattle.daybook.specs.Daybook.Call.{passing, cancelling, shipping};
ghost use Rattle.text_laws.specs.Saved.{read_text};
ghost use Rattle.rolls.specs.Texts.{saved_of};
ghost use Rattle.replay.specs.Heard.{answered, turn_open, turn_kept, turn_shut};
ghost use Rattle.replay.specs.Stands.{Answers, text_in, KeepsText, SavesText, Turns, TurnsClosed, TurnsAny};

use crate::request::{Answer, Request};
use crate::roll::{Roll, SavedText};
use press::{Block, Press};
use refusals::refusal::Refusal;
use refusals::size::DigestSize;
use rolls::state::{ClosedRoll, OpenRoll};

// The answer to a call that hands nothing out.
impl From<Result<(), Refusal>> for Answer {
    ghost use Rattle.replay.specs.declared.request.Answer.TheVariants.{Done};

    ghost from_gives = { λ res answer. answer ≡ answered (outcome res) Done };

    fn from(res: Result<(), Refusal>) -> Answer {
        match res {
            Ok(()) => Answer::Done,
            Err(refusal) => Answer::Refused(refusal),
        }
    }
}

// Ships into the first `room` bytes of a block; a longer buffer makes no difference.
fn ship_into<P: Press>(
    roll: &mut OpenRoll<P>,
    room: usize,
    block: &mut Block,
) -> Result<(), Refusal>
    ensures answer { outcome result ≡ refused_ship roll.old.contents room }
    ensures after { Leaves result roll.old roll.new (after_ship roll.old) }
    ensures written { OnOk result (block.new ≡ oldest roll.old.contents) }
{
    roll.ship(&mut block[0..room.min(64)])
}

fn pass<P: Press>(roll: &mut OpenRoll<P>, passage: &[u8]) -> Answer
    ensures { Answers P.means roll.old (passing passage.now) (λ _. Answer.Done) result roll.new }
{
    Answer::from(roll.pass(passage))
}

fn cancel<P: Press>(roll: &mut OpenRoll<P>, serial: u32) -> Answer
    ensures { Answers P.means roll.old (cancelling serial) (λ _. Answer.Done) result roll.new }
{
    Answer::from(roll.cancel(serial))
}

fn ship<P: Press>(roll: &mut OpenRoll<P>, room: usize) -> Answer
    ensures { Answers P.means roll.old (shipping room) (λ d. Answer.Shipped (next_out d)) result roll.new }
{
    let mut block = [0; 64];
    match ship_into(roll, room, &mut block) {
        Ok(()) => Answer::Shipped(block),
        Err(refusal) => Answer::Refused(refusal),
    }
}

// Saves into the first `room` of 4,700 bytes; no text is longer, so a longer buffer makes no difference.
fn save_into<P: Press>(
    roll: &OpenRoll<P>,
    room: usize,
    bytes: &mut [u8; 4700],
) -> Result<usize, Refusal>
    ensures answer { outcome result ≡ refused_save roll.now.contents room }
    ensures text { SavesText roll.now bytes.new result }
{
    roll.save(&mut bytes[0..room.min(4700)])
}

fn save<P: Press>(roll: &OpenRoll<P>, room: usize) -> Result<SavedText, Refusal>
    ensures answer { outcome result ≡ refused_save roll.now.contents room }
    ensures text { IfOk result (KeepsText roll.now) }
{
    let mut bytes = [0; 4700];
    let len = save_into(roll, room, &mut bytes)?;
    Ok(SavedText { bytes, len })
}

// A save, and the answer to it.
fn save_turn<P: Press>(roll: OpenRoll<P>, room: usize) -> (Roll<P>, Answer)
    ensures { Turns P.means roll (λ size calls. turn_open size calls (Request.Save room)) result.0 result.1 }
{
    match save(&roll, room) {
        Ok(text) => {
            let len = text.len;
            (Roll::Saved(roll, text), Answer::Wrote(len))
        }
        Err(refusal) => (Roll::Open(roll), Answer::Refused(refusal)),
    }
}

// Another size than that.
fn other_size(size: DigestSize) -> DigestSize
    ensures { bits_in result ≢ bits_in size }
{
    match size {
        DigestSize::D512 => DigestSize::D224,
        _ => DigestSize::D512,
    }
}

// A new roll over the same press, opened with another size and filled from the text.
fn resume_new<P: Press + Drop>(roll: OpenRoll<P>, text: &SavedText) -> OpenRoll<P>
    ensures press { result.press ≡ roll.press }
    ensures told { read_text (text_in text.now) ≡ Ok (saved_of result) }
{
    let size = other_size(roll.size());
    let mut fresh = OpenRoll::new(roll.into_press(), size);
    fresh.resume(text.as_slice()).unwrap();
    fresh
}

fn close_turn<P: Press>(roll: OpenRoll<P>) -> (Roll<P>, Answer)
    ensures { Turns P.means roll (λ size calls. turn_open size calls Request.Close) result.0 result.1 }
{
    (Roll::Closed(roll.close()), Answer::Done)
}

fn reopen_turn<P: Press>(roll: ClosedRoll<P>) -> (Roll<P>, Answer)
    ensures { TurnsClosed P.means roll (λ size calls. turn_shut size calls Request.Reopen) result.0 result.1 }
{
    (Roll::Open(roll.reopen()), Answer::Done)
}

// A request to an open roll.
fn turn_open<P: Press>(mut roll: OpenRoll<P>, request: &Request) -> (Roll<P>, Answer)
    ensures { Turns P.means roll (λ size calls. turn_open size calls request.now) result.0 result.1 }
{
    let answer = match request {
        Request::Close => return close_turn(roll),
        Request::Save(room) => return save_turn(roll, *room),
        Request::Pass(passage) => pass(&mut roll, passage),
        Request::Cancel(serial) => cancel(&mut roll, *serial),
        Request::Ship(room) => ship(&mut roll, *room),
        Request::Reopen => Answer::Skipped,
        Request::Resume => Answer::Skipped,
    };
    (Roll::Open(roll), answer)
}

// A request to an open roll, right after a save.
// Kept: that the text is this roll's is a premise here and no invariant of a struct of the two. Such a type would be narrower:
// `turn` takes any open roll with any saved text.
fn turn_saved<P: Press + Drop>(
    roll: OpenRoll<P>,
    text: SavedText,
    request: &Request,
) -> (Roll<P>, Answer)
    ensures { read_text (text_in text) ≡ Ok (saved_of roll) → Turns P.means roll (λ size calls. turn_kept size calls request.now) result.0 result.1 }
{
    match request {
        Request::Resume => (Roll::Open(resume_new(roll, &text)), Answer::Done),
        Request::Reopen => (Roll::Saved(roll, text), Answer::Skipped),
        _ => turn_open(roll, request),
    }
}

// A request to a closed roll.
fn turn_closed<P: Press>(roll: ClosedRoll<P>, request: &Request) -> (Roll<P>, Answer)
    ensures { TurnsClosed P.means roll (λ size calls. turn_shut size calls request.now) result.0 result.1 }
{
    match request {
        Request::Reopen => reopen_turn(roll),
        _ => (Roll::Closed(roll), Answer::Skipped),
    }
}

// A request to a roll: the roll after it, and the answer.
// Kept: a pair, which every caller takes apart at once; a struct would only give its parts their names again.
pub fn turn<P: Press + Drop>(roll: Roll<P>, request: &Request) -> (Roll<P>, Answer)
    ensures { TurnsAny P.means roll request.now result.0 result.1 }
{
    match roll {
        Roll::Open(roll) => turn_open(roll, request),
        Roll::Saved(roll, text) => turn_saved(roll, text, request),
        Roll::Closed(roll) => turn_closed(roll, request),
    }
}
