// A saved text, read.
ghost use Rattle.std.specs.Prelude.{◌≡◌, ◌≤◌, [], Ok, Err, MatchResult};
ghost use Rattle.refusals.specs.Refusals.{number as number_of};
ghost use Rattle.window.specs.Listed.{listed};
ghost use Rattle.text_laws.specs.Saved.{passages};
ghost use Rattle.saved_text.specs.Snapshots.{Reads, Lawful};

use crate::head::{chain_of, head_of, passage_of};
use crate::line::{LineFault, next_line};
use crate::snapshot::{Snapshot, TextFault};
use window::window::Window;

// The line of the first passage.
const FIRST_PASSAGE: u32 = 3;

impl From<LineFault> for TextFault {
    ghost from_gives = { λ e f. (f.refusal ≡ e.refusal) × (f.line ≡ e.line) };

    fn from(fault: LineFault) -> TextFault {
        TextFault {
            refusal: fault.refusal,
            line: fault.line,
        }
    }
}

// The passages from line 3 on, with nothing after them.
#[tactic(auto, using(crate::proofs::Turns::left_over))]
fn read_window(text: &[u8], count: u32, last: u32) -> Result<Window, TextFault>
    requires { count ≤ 32 }
    ensures { MatchResult result (λ w. passages count 3 last [] text.now ≡ Ok (listed w)) (λ e. passages count 3 last [] text.now ≡ Err (number_of e.refusal, e.line)) }
{
    let end = FIRST_PASSAGE + count;
    let mut window = Window::new();
    let mut before = last;
    let mut rest = text;
    for at in FIRST_PASSAGE..end {
        let (line, after) = next_line(rest, at)?;
        let passage = passage_of(line, at, before)?;
        before = passage.serial;
        window.push(passage).unwrap();
        rest = after;
    }
    if !rest.is_empty() {
        return Err(TextFault::from(LineFault::malformed(end)));
    }
    Ok(window)
}

// What the lines of a text say, one after the other.
fn parse(text: &[u8]) -> Result<Snapshot, TextFault>
    ensures { Reads text.now result }
{
    let (line, rest) = next_line(text, 1)?;
    let head = head_of(line, 1)?;
    let (line, rest) = next_line(rest, 2)?;
    let chain = chain_of(line, 2)?;
    let window = read_window(rest, head.window, head.last)?;
    Ok(Snapshot {
        size: head.size,
        shipped: head.shipped,
        last: head.last,
        cents: head.cents,
        chain,
        window,
    })
}

// What a text says. Refuses every text that is not the text of a valid roll, at its first wrong line: as malformed where that
// line is missing, left over, without its line feed or not of its form, else for its values.
// Kept: no plainer in one with `parse`, since the law would be proved at each of its returns, and here it is once.
pub fn read(text: &[u8]) -> Result<Snapshot, TextFault>
    ensures value { Reads text.now result }
    ensures law { Lawful text.now result }
{
    parse(text)
}
